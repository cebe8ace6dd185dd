ghost use Rattle.std.specs.Prelude.{◌≡◌, ◌++◌, OnOk};
ghost use Rattle.std.specs.Option.{option_to_list};

use cal_base::{Items, Oom};

/// Puts an item, if there is one, at the end of a list.
pub fn put_item<T: Drop>(list: &mut Items<T>, item: Option<T>) -> Result<(), Oom>
    ensures { OnOk result (list.new ≡ list.old ++ option_to_list item) }
{
    match item {
        Some(item) => list.push(item),
        None => Ok(()),
    }
}
