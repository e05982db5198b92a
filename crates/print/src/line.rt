// The printed line of an answer. Document 01, "The plan file and its line".
ghost use Rattle.std.specs.Prelude.{◌≡◌, [], ◌++◌, ◌+◌, ◌≤◌, length};
ghost use Rattle.scope.specs.Line.{decimal, line as lineBy, line_answer, line_out};
ghost use Rattle.tables.specs.Told.{told_amount, told_verdict};
ghost use Rattle.print.specs.Text.{shown};

use crate::text::Text;
use tables::answer::{Refusal, Verdict};

// A line has at most 36 bytes of words and four numbers of 20 digits.
pub const MOST: usize = 116;

// A number in plain decimals. By hand: `write!` promises its bytes only where it is `Ok`, and nothing promises that it is; `line` has no refusal for that.
#[tactic(auto, using(crate::proofs::TextLaws::by_digits))]
fn put_decimal(text: &mut Text<MOST>, n: u64)
    requires { length (shown text.old) + length (decimal n) ≤ MOST }
    ensures { shown text.new ≡ shown text.old ++ decimal n }
{
    if n < 10 {
        return text.push(b'0' + n as u8);
    }
    put_decimal(text, n / 10);
    text.push(b'0' + (n % 10) as u8);
}

// A word, then a number.
#[tactic(auto, using(crate::proofs::TextLaws::part_by_part))]
fn put_part(text: &mut Text<MOST>, word: &[u8], n: u64)
    requires { length (shown text.old) + length word.now + 20 ≤ MOST }
    ensures part { shown text.new ≡ shown text.old ++ (word.now ++ decimal n) }
    ensures most { length (shown text.new) ≤ length (shown text.old) + length word.now + 20 }
{
    text.put(word);
    put_decimal(text, n);
}

#[tactic(auto, unfolding(scope::specs::Line::line))]
fn put_line(text: &mut Text<MOST>, verdict: Result<Verdict, Refusal>)
    requires { shown text.old ≡ [] }
    ensures { shown text.new ≡ lineBy (told_verdict verdict) }
{
    match verdict {
        Ok(Verdict::Meets { cycle }) => {
            put_part(text, b"MEETS cycle ", u64::from(cycle));
        }
        Ok(
            Verdict::Miss {
                length,
                start,
                demand,
                supply,
            },
        ) => {
            put_part(text, b"MISS length ", u64::from(length));
            put_part(text, b" start ", u64::from(start));
            put_part(text, b" demand ", demand);
            put_part(text, b" supply ", u64::from(supply));
        }
        Err(refusal) => {
            put_part(text, b"REFUSED ", refusal.number());
            put_part(text, b" at ", refusal.place());
        }
    }
    text.put(b"\n");
}

// The line at the front of out, the rest of out kept: how many bytes. Refusal 8.
#[tactic(auto, unfolding(scope::specs::Line::line_answer, scope::specs::Line::line_out))]
pub fn line(verdict: Result<Verdict, Refusal>, out: &mut [u8]) -> Result<u64, Refusal>
    ensures answer { told_amount result ≡ line_answer (told_verdict verdict) (length out.old) }
    ensures buffer { out.new ≡ line_out (told_verdict verdict) out.old }
{
    let mut text = Text::new();
    put_line(&mut text, verdict);
    text.deliver(out)
}
