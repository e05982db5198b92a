ghost use Rattle.std.specs.Prelude.{◌≡◌};
ghost use Rattle.scope.specs.Windows.{framed, windows_of, window_at, gives};
ghost use Rattle.tables.specs.Cursors.{begin, after};

use crate::window::window_at;

// A tick of the frame and the window at hand there: on a legal table the first one that ends after the tick, which alone can give it; past the last one
// none is. So whoever goes on tick by tick looks at one window each time.
#[derive(Clone, Copy)]
pub struct Cursor {
    pub tick: u32,
    pub window: usize,
}

impl Cursor {
    // The first tick of a frame.
    pub fn new() -> Cursor
        ensures { result ≡ begin }
    {
        Cursor { tick: 0, window: 0 }
    }

    // One tick on. After the last tick of a frame comes the first; where the window at hand ends, the next one is at hand.
    pub fn next(self, frame: u32, windows: &[u32]) -> Cursor
        ensures { result ≡ after (framed frame) windows.now self }
    {
        let at = self.window;
        if frame <= self.tick {
            return Cursor::new();
        }
        let tick = self.tick + 1;
        if tick == frame {
            return Cursor::new();
        }
        let window = window_at(windows, at);
        if window.end == tick {
            return Cursor {
                tick,
                window: at + 1,
            };
        }
        Cursor { tick, window: at }
    }

    // Whether the window at hand gives the tick, where no tick is lost.
    pub fn is_on(self, windows: &[u32]) -> bool
        ensures { result ≡ gives 0 (window_at (windows_of windows.now) self.window) self.tick }
    {
        let window = window_at(windows, self.window);
        window.holds(u64::from(self.tick))
    }
}
