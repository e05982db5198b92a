// Text of at most N bytes.
ghost use Rattle.std.specs.Prelude.{◌≤◌};

// It is the bytes before `end`.
#[derive(Drop)]
pub(crate) struct Text<const N: usize> {
    pub bytes: [u8; N],
    pub end: usize,
    pub ghost fits: { end ≤ N },
}
