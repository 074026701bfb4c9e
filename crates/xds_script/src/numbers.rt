// Numbers in words.
ghost use Rattle.std.specs.Prelude.{◌≡◌};
ghost use Rattle.xds_script.specs.Words.{replica_number, whole_number, number_in};

use xds_resource::decimal_number;

/// The number from 1 to `most` whose shortest decimal the word is.
fn number_to(most: u64, word: &str) -> Option<u64>
    ensures { result ≡ number_in 1 most word.now }
{
    let number = decimal_number(word)?;
    if number == 0 || number > most {
        return None;
    }
    Some(number)
}

/// The number of a replica.
pub(crate) fn replica_number(word: &str) -> Option<u16>
    ensures { result ≡ replica_number word.now }
{
    u16::try_from(number_to(65_535, word)?).ok()
}

/// The number of a client or of a batch.
pub(crate) fn whole_number(word: &str) -> Option<u32>
    ensures { result ≡ whole_number word.now }
{
    u32::try_from(number_to(4_294_967_295, word)?).ok()
}
