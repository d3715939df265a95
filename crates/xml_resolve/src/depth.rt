//! How deep the elements of a document are nested.
ghost use Rattle.std.specs.Prelude.{◌≡◌};
ghost use Rattle.xml_resolve.specs.Depth.{deepest_from, depth};
ghost use Rattle.xml_syntax.specs.Seen.{seen_all};
ghost use Rattle.xml_syntax.specs.Tree as tree;
ghost use Rattle.xml_syntax.specs.Tree.{Content};

use xml_syntax::Event;

/// How many elements are open at most: in a document, where the events are those of a tree. It takes no memory.
pub fn depth_of(events: &[Event<'_>]) -> usize
    ensures exact { result ≡ deepest_from 0 0 (seen_all events.now) }
    ensures tree { (t : Content) → seen_all events.now ≡ tree.events t → result ≡ depth t }
{
    deepest(events)
}

fn deepest(events: &[Event<'_>]) -> usize
    ensures { result ≡ deepest_from 0 0 (seen_all events.now) }
{
    let mut level = 0_usize;
    let mut best = 0;
    for event in events {
        match event {
            Event::Start(_) => {
                level += 1;
                if best < level {
                    best = level;
                }
            }
            Event::End(_) => level = level.saturating_sub(1),
            _ => {}
        }
    }
    best
}
