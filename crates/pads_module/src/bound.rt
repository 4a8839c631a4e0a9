//! How far a search goes.
ghost use Rattle.std.specs.Prelude.{◌≡◌, ◌≤◌};
ghost use Rattle.pads_calc.specs.Rows.{farthest};
ghost use Rattle.pads_module.specs.Modules.{contents};

use crate::Module;

impl Module {
    /// Lets a search pass over so many bytes at most. Nothing else changes.
    pub fn bound_scan(&mut self, n: u32)
        requires { n ≤ farthest }
        ensures bound { contents self.new ≡ record (contents self.old) { scan = n } }
    {
        self.scan = n;
    }
}
