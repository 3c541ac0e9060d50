// Entries of equal key as lists in two arrays, one list for each key, so that a key's entries are walked in time linear in their
// number. They are listed in one pass from the last entry to the first: each becomes the first of its key, and what was first
// comes next.
#![tactic(auto)]

ghost use Rattle.std.specs.Prelude.{◌≡◌, ◌<◌, length, get_or};
ghost use Rattle.buckets.specs.Listed.{Listed, AllListed};

// The number at a place of a list.
pub fn entry_at(list: &[u16], place: usize) -> usize
    requires { place < length list.now }
    ensures { result ≡ get_or list.now place 0 }
{
    usize::from(list[place])
}

// Lists the entries of each key. To begin with no entry is listed: each key's first is the number of entries, which ends a list.
pub fn list_entries(keys: &[u16], first: &mut [u16], next: &mut [u16])
    requires few { length keys.now < 65536 }
    requires empty { Listed keys.now (length first.old) (length keys.now) first.old next.old }
    ensures { AllListed keys.now first.old next.old first.new next.new }
{
    for entry in (0..keys.len()).rev() {
        let key = entry_at(keys, entry);
        next[entry] = first[key];
        first[key] = entry as u16;
    }
}
