// Which value of a command's options is none of those that it may be, where `clap` takes it.
ghost use Rattle.std.specs.Prelude.{◌≡◌, codes};
ghost use Rattle.clap.specs.Words.{found_of, rows_of, subcommand_rows_of};
ghost use Rattle.xds_program.specs.Words.{IsNumber};
ghost use Rattle.xds_program.specs.WrongValues.{told_of, Blames, BlamesIn};

use crate::option_values::{
    address, address_given, are_apart, has_numbers, has_ports, is_alone, kind, number, variant,
};
use clap::ArgMatches;

/// A value that is none of those that it may be.
#[derive(Clone, Copy, Debug, PartialEq, Eq)]
pub enum WrongValue {
    /// `--addr` is no address of IPv4 with a port.
    Addr,
    /// `--variant` is none.
    Variant,
    /// `--type` is none.
    Kind,
    /// A port of the last replica is above 65,535.
    Port,
    /// The ports of streams and those of REST meet.
    Meeting,
    /// An operator's port is one of theirs.
    Admin,
    /// The number of the last replica is above 65,535.
    Number,
    /// `--validate` is no address of IPv4 with a port.
    Validate,
    /// Another value.
    Other,
}

impl WrongValue {
    /// What is told of it: the option, and its values.
    pub(crate) fn text(self) -> &'static str
        ensures { result.now ≡ told_of self }
    {
        match self {
            WrongValue::Addr => {
                "--addr: an address of IPv4 and a port, as 127.0.0.1:18000; for localhost write 127.0.0.1"
            }
            WrongValue::Variant => "--variant: sotw or delta",
            WrongValue::Kind => "--type: cluster, endpoint, listener, route or secret",
            WrongValue::Port => "--port, --rest-port: the port of the last replica is above 65535",
            WrongValue::Meeting =>
                "--port, --rest-port: the ports of streams and those of REST meet",
            WrongValue::Admin => "--admin-port: it is a port of streams or of REST",
            WrongValue::Number => "--first-number: the number of the last replica is above 65535",
            WrongValue::Validate => {
                "--validate: an address of IPv4 and a port, as 127.0.0.1:18300; for localhost write 127.0.0.1"
            }
            WrongValue::Other => "a value is none of those that the help names",
        }
    }
}

/// Which value is wrong, where the matches ask for no task: the first one.
pub(crate) fn wrong_value(matches: &ArgMatches) -> WrongValue
    ensures { BlamesIn (subcommand_rows_of matches.now) result }
{
    if let Some(given) = matches.subcommand_matches("serve") {
        return wrong_port(given);
    }
    if let Some(given) = matches.subcommand_matches("client") {
        return wrong_of_client(given);
    }
    if let Some(given) = matches.subcommand_matches("poll") {
        return wrong_of_poll(given);
    }
    wrong_of_operator(matches)
}

// The same, of the commands that ask a server's operator's port.
fn wrong_of_operator(matches: &ArgMatches) -> WrongValue
    ensures { BlamesIn (subcommand_rows_of matches.now) result }
{
    if let Some(given) = matches.subcommand_matches("get") {
        return wrong_of_poll(given);
    }
    if let Some(given) = matches.subcommand_matches("delete") {
        return wrong_of_poll(given);
    }
    if let Some(given) = matches.subcommand_matches("put") {
        return wrong_of_status(given);
    }
    match matches.subcommand_matches("status") {
        Some(given) => wrong_of_status(given),
        None => WrongValue::Other,
    }
}

fn wrong_port(given: &ArgMatches) -> WrongValue
    ensures { Blames (rows_of (found_of given.now)) result }
{
    let (Some(replicas), Some(port), Some(rest_port)) = (
        number(given, "replicas"),
        number(given, "port"),
        number(given, "rest-port"),
    ) else {
        return WrongValue::Other;
    };
    if !has_ports(port, replicas) {
        return WrongValue::Port;
    }
    if !has_ports(rest_port, replicas) {
        return WrongValue::Port;
    }
    if !are_apart(port, rest_port, replicas) {
        return WrongValue::Meeting;
    }
    if is_alone(number(given, "admin-port"), port, rest_port, replicas) {
        wrong_number(given, replicas)
    } else {
        WrongValue::Admin
    }
}

// rule: new-numbers
fn wrong_number(given: &ArgMatches, replicas: u16) -> WrongValue
    requires { IsNumber (rows_of (found_of given.now)) (codes "replicas") replicas }
    ensures { Blames (rows_of (found_of given.now)) result }
{
    if has_numbers(number(given, "first-number"), replicas) {
        wrong_checker(given)
    } else {
        WrongValue::Number
    }
}

fn wrong_checker(given: &ArgMatches) -> WrongValue
    ensures { Blames (rows_of (found_of given.now)) result }
{
    if address_given(given, "validate").is_none() {
        WrongValue::Validate
    } else {
        WrongValue::Other
    }
}

fn wrong_of_client(given: &ArgMatches) -> WrongValue
    ensures { Blames (rows_of (found_of given.now)) result }
{
    match address(given) {
        Some(_) => wrong_variant(given),
        None => WrongValue::Addr,
    }
}

fn wrong_variant(given: &ArgMatches) -> WrongValue
    ensures { Blames (rows_of (found_of given.now)) result }
{
    if variant(given).is_none() {
        WrongValue::Variant
    } else {
        wrong_type(given)
    }
}

fn wrong_of_poll(given: &ArgMatches) -> WrongValue
    ensures { Blames (rows_of (found_of given.now)) result }
{
    match address(given) {
        Some(_) => wrong_type(given),
        None => WrongValue::Addr,
    }
}

fn wrong_of_status(given: &ArgMatches) -> WrongValue
    ensures { Blames (rows_of (found_of given.now)) result }
{
    match address(given) {
        Some(_) => WrongValue::Other,
        None => WrongValue::Addr,
    }
}

fn wrong_type(given: &ArgMatches) -> WrongValue
    ensures { Blames (rows_of (found_of given.now)) result }
{
    if kind(given).is_none() {
        WrongValue::Kind
    } else {
        WrongValue::Other
    }
}
