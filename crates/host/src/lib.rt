// The two entry points for a C program. They ask nothing of the caller beyond what a C signature can say, and make the tables
// once, for all that they call.
#![tactic(auto)]

ghost use Rattle.std.specs.Prelude.{◌≡◌, ◌+◌, ◌*◌, ◌^◌, ◌<◌};
ghost use Rattle.answers.specs.Reasons.{number_of_answer, length_of_answer};
ghost use Rattle.records.specs.Records.{record_outcome};
ghost use Rattle.listings.specs.Listings.{listing_outcome};
ghost use Rattle.host.specs.Packed.{asked, Returns};

use answers::{Answer, Refused};
use names::Tables;
use records::Asked;

// The answers of document 01 that are no reason to refuse a record.
const PRINTED: u8 = 0;

const ROOM: u8 = 6;

// The answer in the upper half, the length in the lower.
fn pack(answer: Answer) -> u64
    requires { length_of_answer answer < 2 ^ 32 }
    ensures { result ≡ number_of_answer answer * 2 ^ 32 + length_of_answer answer }
{
    let (number, length) = match answer {
        Ok(written) => (PRINTED, written),
        Err(Refused::For(reason)) => (reason.number(), 0),
        Err(Refused::Room { needed }) => (ROOM, needed),
    };
    (number as u64) * 0x1_0000_0000 + length as u64
}

#[unsafe(no_mangle)]
pub extern "C" fn masm_print_record(body: &[u8], version: u32, mode: u32, text: &mut [u8]) -> u64
    ensures { Returns (record_outcome (asked version mode) body.now text.old) result text.new }
{
    let tables = Tables::new();
    let answer = listings::record::print_record(&tables, body, Asked { mode, version }, text);
    pack(answer)
}

#[unsafe(no_mangle)]
pub extern "C" fn masm_print_listing(listing: &[u8], mode: u32, text: &mut [u8]) -> u64
    ensures { Returns (listing_outcome (asked 1 mode) listing.now text.old) result text.new }
{
    let tables = Tables::new();
    let answer = listings::listing::print_listing(
        &tables,
        listing,
        Asked { mode, version: 1 },
        text,
    );
    pack(answer)
}
