ghost use Rattle.std.specs.Prelude.{◌≡◌};
ghost use Rattle.lvdc_asm.specs.Names.{AreKnown};

use crate::names::Names;
use crate::target::Target;
use lvdc_map::Hop;
use lvdc_place::Layout;

/// The names of a source, and where each of its items stands.
#[derive(Drop)]
pub(crate) struct Places {
    pub(crate) names: Names,
    pub(crate) layout: Layout,
    ghost known: { AreKnown names layout.spots },
}

impl Places {
    ghost use Rattle.lvdc_asm.specs.Hop.{plan_at, target_of, start_of};

    /// Where the line that defines a name stands; none where no line does.
    pub(crate) fn target(&self, name: &[u8]) -> Option<Target>
        ensures { result ≡ target_of (plan_at self.now.names self.now.layout) name.now }
    {
        let definition = self.names.definition(name)?;
        let spot = self.layout.spot(definition.item)?;
        Some(Target {
            at: spot.at,
            syl: spot.syl,
            assumed: definition.assumed,
        })
    }

    /// The HOP constant of a line of code by its name.
    pub(crate) fn start(&self, name: &[u8]) -> Option<Hop>
        ensures { result ≡ start_of (plan_at self.now.names self.now.layout) name.now }
    {
        self.target(name)?.hop()
    }
}
