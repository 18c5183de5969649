// The sum over a row of bytes, one byte after another through the table.
ghost use Rattle.std.specs.Prelude.{◌≡◌};
ghost use Rattle.fcs.specs.Laws.{NineDigits, OwnCheckLeavesConstant};
ghost use Rattle.fcs.specs.Sum.{step, fcs};

use crate::table::fcs_table;

// The register after one byte more.
#[tactic(auto, using(crate::proofs::Linear::step_table, std::proofs::lemmas::Grind::common_steps))]
fn next(register: u16, byte: u8) -> u16
    ensures { result ≡ step register byte }
{
    let low = (register ^ u16::from(byte)) & 0xff;
    (register >> 8) ^ fcs_table()[usize::from(low)]
}

/// The check sequence of a row of bytes: the complemented register after all of them.
pub fn fcs16(bytes: &[u8]) -> u16
    ensures value { result ≡ fcs bytes.now }
    ensures nine_digits { NineDigits }
    ensures own_check { OwnCheckLeavesConstant }
{
    let mut register = 0xffff;
    for byte in bytes {
        register = next(register, *byte);
    }
    !register
}
