// The claim (document 01, "Records").
ghost use Rattle.std.specs.Prelude.{◌≡◌};
ghost use Rattle.file_records.specs.Records.{checked, claim_number};

use base::bytes::{cut, field};
use file_records::program::Refusal;
use file_records::record::{checked, first_number, is_kind};

pub(crate) fn check_claim(file: &[u8], at: usize) -> Result<(), Refusal>
    ensures { result ≡ checked (claim_number file.now at) at }
{
    checked(
        first_number(
            !is_kind(file, at, 15),
            cut(file, at, 1),
            false,
            false,
            !(field(file, at, 1) <= 2),
        ),
        at,
    )
}
