// That the keys of a map ascend.

ghost use Rattle.std.specs.BTreeMap.{IsOrdered};

use std::collections::BTreeMap;

/// It does nothing: what every map keeps, for a proof that has lost it.
pub fn is_ordered<K: Ord, V>(map: &BTreeMap<K, V>)
    ensures { IsOrdered ⟦<K as Ord>⟧.cmp map.now }
{
    let _count = map.len();
}
