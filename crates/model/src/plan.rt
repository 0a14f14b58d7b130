// What every plan of a hall shows, whatever it is made of.
ghost use Rattle.std.specs.Prelude.{◌≡◌};
ghost use Rattle.model.specs.Layouts.{Layout, Sound};

// A plan has vertices numbered from 0, one of them the root, and at each vertex ports numbered from 0, each leading to a vertex.
// Asking changes nothing, and the same question has the same answer: the one that the layout gives.
pub trait Plan {
    // What the plan is.
    ghost layout: { Self → Layout };

    // The limits that every plan keeps, as a proof that each `impl` gives.
    ghost sound: { (x : Self) → Sound (layout x) };

    fn size(&self) -> u16
        ensures { result ≡ (layout self.now).size };

    fn root(&self) -> u16
        ensures { result ≡ (layout self.now).root };

    // The number of ports of `v`, 0 for a vertex that the plan lacks.
    fn degree(&self, v: u16) -> u16
        ensures { result ≡ (layout self.now).degree v };

    // Where the port leads, none for a vertex or a port that the plan lacks.
    fn target(&self, v: u16, port: u16) -> Option<u16>
        ensures { result ≡ (layout self.now).target v port };
}
