ghost use Rattle.ordered.specs.OrderedSet.{OrderedPromises};

use tasks::future::Future;

// What is promised of every run of an ordered set over a bounded one holds by the rules, for every kind of future.
pub fn ordered_stands<F: Future>()
    ensures { OrderedPromises F.Future.acts F.Ticketed.bearing F.Output.Ticketed.bearing }
{}
