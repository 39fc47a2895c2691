// How many buckets and entries a number of bones has.
ghost use Rattle.std.specs.Prelude.{◌≡◌};
ghost use Rattle.format.specs.Chains.{num_hash_buckets, bucket_count, entry_count};

// The first of the ladder greater than n, else 65521. (Each answer has a branch of its own and no loop finds it, as
// docs/changes/A4.md asks, and `compare/branches` reports which branches, and with them which answers, the trial rigs reach.)
#[tactic(auto, unfolding(format::specs::Chains::num_hash_buckets, format::specs::Chains::first_above, format::specs::Chains::ladder))]
pub fn num_hash_buckets(n: usize) -> usize
    ensures answer { result ≡ num_hash_buckets n }
{
    if n <= 10 {
        return 11;
    }
    if n <= 28 {
        return 29;
    }
    if n <= 58 {
        return 59;
    }
    if n <= 106 {
        return 107;
    }
    if n <= 190 {
        return 191;
    }
    if n <= 330 {
        return 331;
    }
    if n <= 562 {
        return 563;
    }
    if n <= 952 {
        return 953;
    }
    if n <= 1608 {
        return 1609;
    }
    if n <= 2728 {
        return 2729;
    }
    if n <= 4620 {
        return 4621;
    }
    if n <= 7840 {
        return 7841;
    }
    if n <= 13296 {
        return 13297;
    }
    if n <= 22570 {
        return 22571;
    }
    if n <= 38350 {
        return 38351;
    }
    if n <= 65166 {
        return 65167;
    }
    65521
}

// How many buckets n bones have: none below two bones.
#[tactic(auto, unfolding(format::specs::Chains::bucket_count))]
pub fn bucket_count(n: usize) -> usize
    ensures answer { result ≡ bucket_count n }
{
    if n < 2 { 0 } else { num_hash_buckets(n) }
}

// How many entries n bones have: one for each of two or more.
#[tactic(auto, unfolding(format::specs::Chains::entry_count))]
pub fn entry_count(n: usize) -> usize
    ensures answer { result ≡ entry_count n }
{
    if n <= 1 { 0 } else { n }
}
