// The functions of `exports` as a static library: a crate is a library or a static library, and not both. Each calls its namesake and
// states its clause again: the nine names are the C interface.
#![tactic(auto)]

ghost use Rattle.definitions.specs.Convert.{to_simplified, to_nnf, to_pnf, to_snf, to_cnf, to_dnf, pnf_to_snf, snf_to_cnf, snf_to_dnf};
ghost use Rattle.exports.specs.Calls.{Calls};

#[unsafe(no_mangle)]
pub extern "C" fn wasileko_simplify(
    text: &[u8],
    out: &mut [u8],
    work: &mut [u8],
    place: &mut usize,
) -> u64
    ensures { Calls to_simplified text.now out.old work.old result place.new out.new work.new }
{
    exports::wasileko_simplify(text, out, work, place)
}

#[unsafe(no_mangle)]
pub extern "C" fn wasileko_nnf(
    text: &[u8],
    out: &mut [u8],
    work: &mut [u8],
    place: &mut usize,
) -> u64
    ensures { Calls to_nnf text.now out.old work.old result place.new out.new work.new }
{
    exports::wasileko_nnf(text, out, work, place)
}

#[unsafe(no_mangle)]
pub extern "C" fn wasileko_pnf(
    text: &[u8],
    out: &mut [u8],
    work: &mut [u8],
    place: &mut usize,
) -> u64
    ensures { Calls to_pnf text.now out.old work.old result place.new out.new work.new }
{
    exports::wasileko_pnf(text, out, work, place)
}

#[unsafe(no_mangle)]
pub extern "C" fn wasileko_snf(
    text: &[u8],
    out: &mut [u8],
    work: &mut [u8],
    place: &mut usize,
) -> u64
    ensures { Calls to_snf text.now out.old work.old result place.new out.new work.new }
{
    exports::wasileko_snf(text, out, work, place)
}

#[unsafe(no_mangle)]
pub extern "C" fn wasileko_cnf(
    text: &[u8],
    out: &mut [u8],
    work: &mut [u8],
    place: &mut usize,
) -> u64
    ensures { Calls to_cnf text.now out.old work.old result place.new out.new work.new }
{
    exports::wasileko_cnf(text, out, work, place)
}

#[unsafe(no_mangle)]
pub extern "C" fn wasileko_dnf(
    text: &[u8],
    out: &mut [u8],
    work: &mut [u8],
    place: &mut usize,
) -> u64
    ensures { Calls to_dnf text.now out.old work.old result place.new out.new work.new }
{
    exports::wasileko_dnf(text, out, work, place)
}

#[unsafe(no_mangle)]
pub extern "C" fn wasileko_pnf_snf(
    text: &[u8],
    out: &mut [u8],
    work: &mut [u8],
    place: &mut usize,
) -> u64
    ensures { Calls pnf_to_snf text.now out.old work.old result place.new out.new work.new }
{
    exports::wasileko_pnf_snf(text, out, work, place)
}

#[unsafe(no_mangle)]
pub extern "C" fn wasileko_snf_cnf(
    text: &[u8],
    out: &mut [u8],
    work: &mut [u8],
    place: &mut usize,
) -> u64
    ensures { Calls snf_to_cnf text.now out.old work.old result place.new out.new work.new }
{
    exports::wasileko_snf_cnf(text, out, work, place)
}

#[unsafe(no_mangle)]
pub extern "C" fn wasileko_snf_dnf(
    text: &[u8],
    out: &mut [u8],
    work: &mut [u8],
    place: &mut usize,
) -> u64
    ensures { Calls snf_to_dnf text.now out.old work.old result place.new out.new work.new }
{
    exports::wasileko_snf_dnf(text, out, work, place)
}
