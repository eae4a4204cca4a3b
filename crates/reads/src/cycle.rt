// The evaluation cycle: a word of row 0 of the link table. It is raised before each re-evaluation.
ghost use Rattle.std.specs.Prelude.{◌≡◌};
ghost use Rattle.reading.specs.Tables.{cycle_of, raised};

use primitive::rows::CYCLE;
use primitive::words;
use version::Version;

#[tactic(auto, unfolding(reading::specs::Tables::cycle_of))]
pub fn cycle(links: &[u64]) -> Version
    ensures { result.cycle ≡ cycle_of links.now }
{
    Version {
        cycle: words::at(links, CYCLE),
    }
}

// After the greatest comes 0.
#[tactic(auto, unfolding(reading::specs::Tables::raised))]
pub fn raise_cycle(links: &mut [u64])
    ensures { links.new ≡ raised links.old }
{
    let next = cycle(links).increment();
    words::put(links, CYCLE, next.cycle);
}
