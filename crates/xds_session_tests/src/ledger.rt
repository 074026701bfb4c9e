// What a client of clusters was told and is owed, by scripts over a ledger of either variant.
ghost use Rattle.std.specs.Prelude.{◌≡◌, [], map, IfOk};
ghost use Rattle.xds_resource.specs.declared.types.TypeName.TheVariants as types;
ghost use Rattle.std.proofs.Props.{props};
ghost use Rattle.xds_catalogue.specs.Holdings.{IsCatalogue};
ghost use Rattle.xds_ledger.specs.Ledgers.{AreInOrder};
ghost use Rattle.xds_ledger.specs.Lists.{Fits};
ghost use Rattle.xds_ledger.specs.Offers.{offer};

use crate::stories::{change, keep};
use std::alloc::Global;
use std::test::Fail;
use xds_cases::cases::{Outcome, first_word, hold, words_of};
use xds_cases::scripts::{Script, either, follow};
use xds_catalogue::Catalogue;
use xds_interest::{ClusterText, Interest};
use xds_ledger::{
    Delta, Due, Entry, Ledger, Names, Nonces, SharedMap, StateOfTheWorld, Variant, VariantName,
    Version,
};
use xds_resource::{Cluster, NameMap, Refusal, Stamp, TypeName};
use xds_sessions::Published;

// What the replica holds, what a client wants, and what it was told.
#[derive(Drop)]
struct Client<V: Variant> {
    catalogue: Published<Cluster>,
    interest: Interest<Cluster>,
    ledger: Ledger<Cluster, V>,
    ghost named: { IsCatalogue catalogue.entries } by { Prim.hlevel props },
    ghost anywhere: { interest.cluster ≡ [] },
    ghost fits: { Fits V.NAME types.Cluster interest catalogue ledger } by { Prim.hlevel props },
}

// The names of an offer, each with `=` and its version, or with `-` where it is removed.
fn offer_text(alloc: Global, offer: &NameMap<Due>) -> Result<String, Refusal> {
    let mut all = String::from_str(alloc, "{")?;
    for (name, due) in offer.iter() {
        all.push_str(name.as_str())?;
        push_due(&mut all, due)?;
    }
    all.push_str("}")?;
    Ok(all)
}

fn push_due(all: &mut String, due: &Due) -> Result<(), Refusal> {
    match due {
        Due::Stated(version) => {
            all.push_str("=")?;
            all.push_str(version.as_str())?;
        }
        Due::Removed => all.push_str("-")?,
    }
    Ok(all.push_str(",")?)
}

impl<V: Variant> Client<V> {
    // Takes a request with this nonce and these names.
    fn taken(
        &mut self,
        alloc: Global,
        nonce: &str,
        rejects: bool,
        names: &str,
        versions: &[(&str, &str)],
    ) -> Result<String, Refusal>
        requires { AreInOrder (map (λ p. (p.0.now, p.1.now)) versions.now) }
    {
        let next = Interest::of_list(alloc, &words_of(alloc, names)?, ClusterText::none())?;
        let touched = self.interest.touched_until(alloc, &next)?;
        let names = Names::new(&next, &touched, next.names()).resuming(versions);
        self.ledger.take(alloc, nonce, rejects, names)?;
        keep(&mut self.interest, next);
        Ok(String::from_str(alloc, "taken")?)
    }

    fn answered(&mut self, alloc: Global, rejects: bool, rest: &str) -> Result<String, Refusal> {
        let (nonce, names) = rest.split_once(' ').unwrap_or((rest, ""));
        self.taken(alloc, nonce, rejects, names, &[])
    }

    fn resumed(&mut self, alloc: Global, rest: &str) -> Result<String, Refusal> {
        let (name, version) = rest.split_once(' ').unwrap_or((rest, ""));
        self.taken(alloc, "", false, name, &[(name, version)])
    }

    fn change(&mut self, alloc: Global, verb: &str, rest: &str) -> Result<String, Refusal> {
        change(alloc, &mut self.catalogue, verb, rest)
    }

    fn offered(&self, alloc: Global) -> Result<SharedMap<Due>, Refusal>
        ensures { IfOk result (λ o. o ≡ offer V.NAME types.Cluster self.now.interest self.now.catalogue.entries self.now.ledger.account.beliefs) }
    {
        self.ledger
            .offer(alloc, &self.interest, self.catalogue.catalogue())
    }

    fn sent(&mut self, alloc: Global, number: &str) -> Result<String, Refusal> {
        let number = number.parse::<u64>().ok().ok_or(Refusal::BadStamp)?;
        let offer = self.offered(alloc)?;
        self.ledger.send(alloc, offer, number);
        Ok(String::from_str(alloc, "sent")?)
    }

    fn sending(&self, alloc: Global) -> Result<String, Refusal> {
        if self
            .ledger
            .sends(&self.interest, self.catalogue.catalogue())
        {
            offer_text(alloc, self.offered(alloc)?.as_map())
        } else {
            Ok(String::from_str(alloc, "none")?)
        }
    }

    // Whether something holds of the ledger.
    fn is(&self, alloc: Global, verb: &str, rest: &str) -> Result<bool, Refusal> {
        Ok(match verb {
            "answers" => self.ledger.answers(rest),
            "stale" => self.ledger.is_stale(rest),
            "due" => self
                .ledger
                .is_due(&self.interest, self.catalogue.catalogue()),
            _ => self.ledger.owes(&self.interest, self.catalogue.catalogue()),
        })
    }
}

impl<V: Variant> Script for Client<V> {
    fn begin(alloc: Global) -> Client<V> {
        Client {
            catalogue: Published::of(alloc, Catalogue::new(alloc)),
            interest: Interest::nothing(alloc, ClusterText::none()),
            ledger: Ledger::new(alloc),
        }
    }

    fn step(&mut self, alloc: Global, verb: &str, rest: &str) -> Result<String, Refusal> {
        match verb {
            "put" | "delete" => self.change(alloc, verb, rest),
            "take" => self.taken(alloc, "", false, rest, &[]),
            "ack" => self.answered(alloc, false, rest),
            "nack" => self.answered(alloc, true, rest),
            "resume" => self.resumed(alloc, rest),
            "offer" => offer_text(alloc, self.offered(alloc)?.as_map()),
            "send" => self.sent(alloc, rest),
            "sending" => self.sending(alloc),
            _ => either(alloc, self.is(alloc, verb, rest)?, "yes", "no"),
        }
    }
}

// rule: whole-response
#[test]
fn a_whole_response_tells_all(rt: HostRuntime) -> Result<(), Fail> {
    follow::<Client<StateOfTheWorld>, HostRuntime>(
        &rt,
        r#"owes => yes
due => yes
answers 1 => no
stale  => no
stale 1 => yes
sending => {}

take => taken
put {"@type":"CDS","name":"A"} => 1-1
sending => {A=1-1,}
send 1 => sent
owes => yes
sending => none
answers 1 => yes
answers 2 => no
stale 2 => no
ack 1 => taken
owes => no
due => no
stale 2 => yes
stale 1 => no

take => taken
put {"@type":"CDS","name":"A"} => 1-1
send 1 => sent
nack 1 => taken
owes => yes
offer => {A=1-1,}
sending => none
put {"@type":"CDS","name":"B"} => 2-1
sending => {A=1-1,B=2-1,}
send 2 => sent
ack 2 => taken
delete A => 3-1
offer => {B=2-1,}
due => yes

take * => taken
put {"@type":"CDS","name":"A"} => 1-1
put {"@type":"CDS","name":"B"} => 2-1
send 1 => sent
take * A => taken
ack 1 * A => taken
due => yes
send 2 => sent
put {"@type":"CDS","name":"C"} => 3-1
ack 2 * A => taken
due => yes
sending => {A=1-1,B=2-1,C=3-1,}
send 3 => sent
ack 3 * A => taken
due => no"#,
    )
}

// rule: owed, rule: whole-response
#[test]
fn a_response_tells_what_differs(rt: HostRuntime) -> Result<(), Fail> {
    follow::<Client<Delta>, HostRuntime>(
        &rt,
        r#"owes => no
take * => taken
put {"@type":"CDS","name":"A"} => 1-1
put {"@type":"CDS","name":"B"} => 2-1
sending => {A=1-1,B=2-1,}
send 1 => sent
ack 1 * => taken
owes => no
delete A => 3-1
sending => {A-,}
send 2 => sent
take * A => taken
ack 2 * A => taken
sending => {A-,}
send 3 => sent
ack 3 * A => taken
owes => no

put {"@type":"CDS","name":"A"} => 1-1
resume A 1-1 => taken
owes => no
sending => none

put {"@type":"CDS","name":"A"} => 1-1
resume A 9-1 => taken
owes => yes
sending => {A=1-1,}

resume B 7-2 => taken
sending => {B-,}"#,
    )
}

// rule: new-nonce, rule: nonce-numbers
#[test]
fn nonces_are_numbers_from_one(rt: HostRuntime) -> Result<(), Fail> {
    let mut nonces = Nonces::new();
    assert_eq!(rt; nonces.next(), Ok(1));
    assert_eq!(rt; nonces.next(), Ok(2));
    assert!(rt; !nonces.are_spent());
    Ok(())
}

// What a version tells: its text, and whether it is of the stamps 5-2 and 6-2.
fn version_text(alloc: Global, version: &Version) -> Result<String, Refusal> {
    let text = version.as_str();
    let is_of = version.is_of(Stamp::new(5, 2));
    let is_of_later = version.is_of(Stamp::new(6, 2));
    Ok(format!(in alloc; "{text} {is_of} {is_of_later}")?)
}

// The same of a copy.
fn copy_text(alloc: Global, version: Version) -> Result<String, Refusal> {
    let copy = version.try_copy(alloc)?;
    drop(version);
    let text = version_text(alloc, &copy);
    drop(copy);
    text
}

#[test]
fn versions_are_texts(rt: HostRuntime) -> Result<(), Fail> {
    let alloc = rt.alloc();
    let stamped = copy_text(alloc, Version::of_stamp(alloc, Stamp::new(5, 2))?)?;
    assert_eq!(rt; stamped.as_str(), "5-2 true false");
    let other = copy_text(alloc, Version::from_text(alloc, "05-2")?)?;
    assert_eq!(rt; other.as_str(), "05-2 false false");
    Ok(())
}

// The version that the copy of an entry has.
fn entry_text(alloc: Global, entry: Entry) -> Result<String, Refusal> {
    let copy = entry.try_copy(alloc)?;
    drop(entry);
    let text = match &copy {
        Entry::Told(version) => String::from_str(alloc, version.as_str()),
        Entry::Unsure => String::from_str(alloc, "unsure"),
    };
    drop(copy);
    Ok(text?)
}

// What is due where this version is to be stated, or where `-` stands for a removal.
fn due_of(alloc: Global, version: &str) -> Result<Due, Refusal> {
    if version == "-" {
        return Ok(Due::Removed);
    }
    Ok(Due::Stated(Version::from_text(alloc, version)?))
}

// Whether what is due is the same as the copy of something else that is.
fn is_copy(alloc: Global, due: &Due, other: Due) -> Result<bool, Refusal> {
    let copy = other.try_copy(alloc)?;
    drop(other);
    let same = due.is_same(&copy);
    drop(copy);
    Ok(same)
}

struct Sameness;

impl Outcome for Sameness {
    fn of(alloc: Global, given: &str) -> Result<String, Fail> {
        let (version, other) = first_word(given)?;
        let due = due_of(alloc, version)?;
        let same = is_copy(alloc, &due, due_of(alloc, other)?);
        drop(due);
        Ok(either(alloc, same?, "same", "other")?)
    }
}

#[test]
fn entries_are_copied(rt: HostRuntime) -> Result<(), Fail> {
    let alloc = rt.alloc();
    let told = entry_text(alloc, Entry::Told(Version::from_text(alloc, "5-2")?))?;
    assert_eq!(rt; told.as_str(), "5-2");
    let unsure = entry_text(alloc, Entry::Unsure)?;
    assert_eq!(rt; unsure.as_str(), "unsure");
    hold::<Sameness, HostRuntime>(
        &rt,
        "5-2 5-2 => same
5-2 6-2 => other
5-2 - => other
- - => same",
    )
}

// rule: owed
#[test]
fn variants_tell_removals(rt: HostRuntime) -> Result<(), Fail> {
    let (whole, parts) = (VariantName::StateOfTheWorld, VariantName::Delta);
    assert!(rt; parts.is_delta() && !whole.is_delta());
    assert!(rt; whole.is_whole(TypeName::Cluster) && !whole.is_whole(TypeName::Route));
    assert!(rt; !parts.is_whole(TypeName::Cluster) && parts.tells_removals(TypeName::Route));
    assert!(rt; whole.tells_removals(TypeName::Cluster) && !whole.tells_removals(TypeName::Route));
    Ok(())
}
