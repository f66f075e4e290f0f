// The nine conversions for programs in C and Rust. Each returns the refusal's number, or 0; place then holds its place, or the text's length.
// Nine functions of one line: their names are the C interface.
#![tactic(auto)]

ghost use Rattle.definitions.specs.Convert.{to_simplified, to_nnf, to_pnf, to_snf, to_cnf, to_dnf, pnf_to_snf, snf_to_cnf, snf_to_dnf};
ghost use Rattle.convert.specs.Answers.{named};
ghost use Rattle.exports.specs.Calls.{Calls};

use convert::{Conversion, convert, number_of, place_of};

// The conversion that is named, with its answer in two numbers.
fn call(which: Conversion, text: &[u8], out: &mut [u8], work: &mut [u8], place: &mut usize) -> u64
    ensures { Calls (named which) text.now out.old work.old result place.new out.new work.new }
{
    let answer = convert(which, text, out, work);
    *place = place_of(answer);
    number_of(answer)
}

#[unsafe(no_mangle)]
pub extern "C" fn wasileko_simplify(
    text: &[u8],
    out: &mut [u8],
    work: &mut [u8],
    place: &mut usize,
) -> u64
    ensures { Calls to_simplified text.now out.old work.old result place.new out.new work.new }
{
    call(Conversion::Simplify, text, out, work, place)
}

#[unsafe(no_mangle)]
pub extern "C" fn wasileko_nnf(
    text: &[u8],
    out: &mut [u8],
    work: &mut [u8],
    place: &mut usize,
) -> u64
    ensures { Calls to_nnf text.now out.old work.old result place.new out.new work.new }
{
    call(Conversion::Nnf, text, out, work, place)
}

#[unsafe(no_mangle)]
pub extern "C" fn wasileko_pnf(
    text: &[u8],
    out: &mut [u8],
    work: &mut [u8],
    place: &mut usize,
) -> u64
    ensures { Calls to_pnf text.now out.old work.old result place.new out.new work.new }
{
    call(Conversion::Pnf, text, out, work, place)
}

#[unsafe(no_mangle)]
pub extern "C" fn wasileko_snf(
    text: &[u8],
    out: &mut [u8],
    work: &mut [u8],
    place: &mut usize,
) -> u64
    ensures { Calls to_snf text.now out.old work.old result place.new out.new work.new }
{
    call(Conversion::Snf, text, out, work, place)
}

#[unsafe(no_mangle)]
pub extern "C" fn wasileko_cnf(
    text: &[u8],
    out: &mut [u8],
    work: &mut [u8],
    place: &mut usize,
) -> u64
    ensures { Calls to_cnf text.now out.old work.old result place.new out.new work.new }
{
    call(Conversion::Cnf, text, out, work, place)
}

#[unsafe(no_mangle)]
pub extern "C" fn wasileko_dnf(
    text: &[u8],
    out: &mut [u8],
    work: &mut [u8],
    place: &mut usize,
) -> u64
    ensures { Calls to_dnf text.now out.old work.old result place.new out.new work.new }
{
    call(Conversion::Dnf, text, out, work, place)
}

#[unsafe(no_mangle)]
pub extern "C" fn wasileko_pnf_snf(
    text: &[u8],
    out: &mut [u8],
    work: &mut [u8],
    place: &mut usize,
) -> u64
    ensures { Calls pnf_to_snf text.now out.old work.old result place.new out.new work.new }
{
    call(Conversion::PnfSnf, text, out, work, place)
}

#[unsafe(no_mangle)]
pub extern "C" fn wasileko_snf_cnf(
    text: &[u8],
    out: &mut [u8],
    work: &mut [u8],
    place: &mut usize,
) -> u64
    ensures { Calls snf_to_cnf text.now out.old work.old result place.new out.new work.new }
{
    call(Conversion::SnfCnf, text, out, work, place)
}

#[unsafe(no_mangle)]
pub extern "C" fn wasileko_snf_dnf(
    text: &[u8],
    out: &mut [u8],
    work: &mut [u8],
    place: &mut usize,
) -> u64
    ensures { Calls snf_to_dnf text.now out.old work.old result place.new out.new work.new }
{
    call(Conversion::SnfDnf, text, out, work, place)
}
