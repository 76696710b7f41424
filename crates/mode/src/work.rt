// The guard of the work memory, in which a mode keeps blocks that must not be left behind.
ghost use Rattle.std.specs.Prelude.{◌≡◌, length, replicate};

// Lends the work memory, and writes zeros over it when it is let go, on every way out.
pub struct Wiped<'a> {
    pub bytes: &'a mut [u8],
}

impl Drop for Wiped<'_> {
    fn drop(self)
        ensures { self.exit.0.now ≡ replicate (length self.exit.0.now) 0 }
    {
        self.bytes.fill(0);
        let Wiped { bytes: _ } = self;
    }
}
