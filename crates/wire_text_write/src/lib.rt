// A number in decimal, written into a lent output from a place. Other text is bytes, and `wire_part_write` writes it.
#![tactic(auto)]

ghost use Rattle.std.specs.Prelude.{◌≡◌, [], ◌≤◌, length};
ghost use Rattle.wire.specs.Output.{written_said, written, output_after};
ghost use Rattle.wire_text_write.specs.Text.{decimal};

use wire::Refusal;
use wire_part_write::write_part;

// How many digits n has in decimal.
#[tactic(auto, using(crate::specs::TextLaws::decimals))]
pub fn decimal_len(n: u64) -> usize
    ensures { (result ≡ length (decimal n)) × (result ≤ 20) }
{
    let mut digits = [0u8; 20];
    io::decimal(n, &mut digits)
}

// n in decimal.
#[tactic(auto, using(crate::specs::TextLaws::decimals))]
pub fn write_decimal(out: &mut [u8], at: usize, n: u64) -> Result<usize, Refusal>
    ensures value { written_said result ≡ written [] [] out.old at (decimal n) }
    ensures out_after { out.new ≡ output_after (written_said result) out.old at (decimal n) }
{
    let mut digits = [0u8; 20];
    let k = io::decimal(n, &mut digits);
    write_part(out, at, &digits[..k])
}
