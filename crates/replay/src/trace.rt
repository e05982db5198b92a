// A trace that reads and is not too long: it is gone through again and again.
ghost use Rattle.std.specs.Prelude.{◌≡◌, true};
ghost use Rattle.replay.specs.Fitting.{fits};

// Its bytes.
#[derive(Clone, Copy)]
pub(crate) struct Trace<'a> {
    pub(crate) bytes: &'a [u8],
    pub(crate) ghost fits: { fits bytes.now ≡ true },
}
