//! Parts that stand one behind another in one list, by where each ends.
ghost use Rattle.std.specs.Prelude.{◌≡◌, ◌<◌, Some, length, slice_get};
ghost use Rattle.cps_input.specs.Code.Parts.{RisesTo, parts_at};

/// The part behind so many others. An end says how many items stand before it.
pub fn part_at<'a, T>(items: &'a [T], ends: &[usize], before: usize) -> &'a [T]
    requires rises { RisesTo 0 ends.now (length items.now) }
    requires within { before < length ends.now }
    ensures { slice_get (parts_at 0 ends.now items.now) before ≡ Some result.now }
{
    if before == 0 {
        let (part, _) = items.split_at(ends[0]);
        return part;
    }
    let begin = ends[before - 1];
    let (_, rest) = items.split_at(begin);
    let (part, _) = rest.split_at(ends[before] - begin);
    part
}
