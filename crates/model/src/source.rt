// Where arrows come from.
ghost use Rattle.std.specs.Prelude.{◌≡◌};
ghost use Rattle.model.specs.Arrows.{Cells};

// An arrow source is a function from vertex, index and degree to a port or none. Asking changes nothing.
pub trait ArrowSource {
    // The function.
    ghost cells: { Self → Cells };

    fn port(&self, v: u16, index: u16, degree: u16) -> Option<u16>
        ensures { result ≡ cells self.now v index degree };
}
