// The segment that holds a padded offset, from the cumulative coding lengths.
ghost use Rattle.std.specs.Prelude.{◌≡◌, cond, ◌+◌, ◌≤◌, ◌<◌, length, get_or, ltb};
ghost use Rattle.consequence.specs.code.Segments.{Rising, Held};

// Of `count` segments the one that holds padded offset k, and the first for a pad place: the last that does not begin behind k.
pub(crate) fn segment_of(sums: &[u32], count: usize, k: u32) -> usize
    requires { (0 < count) × (count ≤ 512) × (count < length sums.now) × (k < get_or sums.now count 0) }
    ensures { Rising sums.now count → Held sums.now count k result }
{
    sums[1..count].partition_point(|sum| *sum <= k)
}

// The same, looked for first where a base of the codon is, in segment `near`: mostly it is there.
pub(crate) fn segment_near(sums: &[u32], count: usize, near: usize, k: u32) -> usize
    requires { (0 < count) × (count ≤ 512) × (count < length sums.now) × (k < get_or sums.now count 0) }
    ensures { Rising sums.now count → Held sums.now count k result }
{
    if count <= near || k < sums[near] || sums[near + 1] <= k {
        return segment_of(sums, count, k);
    }
    near
}

// The segment of padded offset k, where segment i holds the offset before it: each segment has a base.
pub(crate) fn next_segment(sums: &[u32], i: usize, k: u32) -> usize
    requires { (i < 512) × (i + 1 < length sums.now) }
    ensures { result ≡ cond (ltb k (get_or sums.now (i + 1) 0)) i (i + 1) }
{
    if k < sums[i + 1] {
        return i;
    }
    i + 1
}
