// Links in two lists, as they are read from either side.
ghost use Rattle.std.specs.Prelude.{◌≡◌, ◌≤◌, length, replicate};
ghost use Rattle.buckets.specs.Listed.{AllBelow};
ghost use Rattle.forest.specs.Arrays.{places};
ghost use Rattle.chain_fewest.specs.Lists.{OneWay};

use buckets::list_entries;
use forest::PLACES;

// The links as read from one side: link i leads from the one list's cell i to the other's. Each cell's links are a list: `first`
// has the cell's first, and `next` what follows a link. The number of links ends a list.
#[derive(Clone, Copy)]
pub struct Side<'a> {
    pub from: &'a [u16],
    pub to: &'a [u16],
    pub first: &'a [u16],
    pub next: &'a [u16],
    ghost one_way: { OneWay places from.now to.now first.now next.now },
}

impl<'a> Side<'a> {
    // Lists the links of each cell in two arrays. To begin with, all lists are empty.
    pub fn list(
        from: &'a [u16],
        to: &'a [u16],
        first: &'a mut [u16; PLACES],
        next: &'a mut [u16; 4096],
    ) -> Side<'a>
        requires few { length from.now ≤ 4096 }
        requires even { length to.now ≡ length from.now }
        requires begins { AllBelow places from.now }
        requires across { AllBelow places to.now }
        requires empty { first.old ≡ replicate places (length from.now) }
        ensures { (result.from.now ≡ from.now) × (result.to.now ≡ to.now) }
    {
        list_entries(from, first, next);
        Side {
            from,
            to,
            first,
            next,
        }
    }
}

// The links as read from both.
#[derive(Clone, Copy)]
pub struct Links<'a> {
    pub forth: Side<'a>,
    pub back: Side<'a>,
    ghost turned: { (back.from.now ≡ forth.to.now) × (back.to.now ≡ forth.from.now) },
}
