// Text, written piece after piece.
ghost use Rattle.std.specs.Prelude.{◌≡◌, [], ◌∷◌, ◌++◌, ◌+◌, ◌<◌, ◌≤◌, length};
ghost use Rattle.scope.specs.Numbers.{written};
ghost use Rattle.scope.specs.Answers.{room_fault, unless, unless_kept};
ghost use Rattle.tables.specs.Told.{told_amount};
ghost use Rattle.print.specs.Text.{shown};

use crate::text::Text;
use tables::answer::Refusal;
use tables::list::check_room;

impl<const N: usize> Text<N> {
    pub(crate) fn new() -> Text<N>
        ensures { shown result ≡ [] }
    {
        Text {
            bytes: [0; N],
            end: 0,
        }
    }

    fn as_bytes(&self) -> &[u8]
        ensures { result.now ≡ shown self.now }
    {
        &self.bytes[..self.end]
    }

    pub(crate) fn push(&mut self, byte: u8)
        requires { length (shown self.old) < N }
        ensures { shown self.new ≡ shown self.old ++ byte ∷ [] }
    {
        self.bytes[self.end] = byte;
        self.end += 1;
    }

    pub(crate) fn put(&mut self, piece: &[u8])
        requires { length (shown self.old) + length piece.now ≤ N }
        ensures { shown self.new ≡ shown self.old ++ piece.now }
    {
        let end = self.end + piece.len();
        // in two steps: the borrow checker covers no part of an array of N bytes that is lent at once to be written
        let all = &mut self.bytes[..];
        all[self.end..end].copy_from_slice(piece);
        self.end = end;
    }

    // The text at the front of out, the rest of out kept: how many bytes. Refusal 8.
    #[tactic(auto, using(tables::proofs::FaultLaws::answered, crate::proofs::TextLaws::delivered), unfolding(scope::specs::Numbers::written))]
    pub(crate) fn deliver(&self, out: &mut [u8]) -> Result<u64, Refusal>
        ensures answer { told_amount result ≡ unless (room_fault (length (shown self.now)) (length out.old)) (length (shown self.now)) }
        ensures buffer { out.new ≡ unless_kept (room_fault (length (shown self.now)) (length out.old)) (written (shown self.now) out.old) out.old }
    {
        let text = self.as_bytes();
        check_room(text.len(), out.len())?;
        out[..text.len()].copy_from_slice(text);
        Ok(text.len() as u64)
    }
}
