// A source down to a depth.
ghost use Rattle.std.specs.Prelude.{◌≡◌};
ghost use Rattle.model.specs.Caps.{capped};

use model::source::ArrowSource;

// At an index at or above the depth there is no port.
#[derive(Drop)]
pub struct Cap<S> {
    pub depth: u16,
    pub below: S,
}

impl<S: ArrowSource> ArrowSource for Cap<S> {
    ghost cells = { λ c. capped c.depth (S.ArrowSource.cells c.below) };

    fn port(&self, v: u16, index: u16, degree: u16) -> Option<u16> {
        if index < self.depth {
            self.below.port(v, index, degree)
        } else {
            None
        }
    }
}
