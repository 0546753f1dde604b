//! What an allocation and a use write into the regions.

ghost use Rattle.std.specs.Prelude.{◌≡◌, ◌+◌, ◌<◌, ◌≤◌, length, ℕ, false, get_or, ◌&&◌, ◌||◌, not, nat_lt, if◌then◌else◌};
ghost use Rattle.dri_texheap.specs.RegionStates.{is_within};
ghost use Rattle.dri_texheap.specs.Search.{is_old};

/// Gives a run an age.
pub fn mark_ages(ages: &mut [u32], first: usize, k: usize, age: u32)
    requires { first + k ≤ length ages.old }
    ensures { (i : ℕ) → get_or ages.new i 0 ≡ (if is_within first k i then age else get_or ages.old i 0) }
{
    for j in 0..k {
        ages[first + j] = age;
    }
}

/// Puts a run in use.
pub fn mark_used(used: &mut [bool], first: usize, k: usize)
    requires { first + k ≤ length used.old }
    ensures { (i : ℕ) → get_or used.new i false ≡ (is_within first k i || get_or used.old i false) }
{
    for j in 0..k {
        used[first + j] = true;
    }
}

// Frees what is in use with an age below the bound, and gives it the age.
fn release(used: &mut [bool], ages: &mut [u32], bound: u32, age: u32)
    requires { length used.old ≡ length ages.old }
    ensures used { (i : ℕ) → get_or used.new i false ≡ (get_or used.old i false && not (is_old used.old ages.old bound i)) }
    ensures ages { (i : ℕ) → get_or ages.new i 0 ≡ (if is_old used.old ages.old bound i then age else get_or ages.old i 0) }
{
    for i in 0..used.len() {
        if used[i] && ages[i] < bound {
            used[i] = false;
            ages[i] = age;
        }
    }
}

/// Frees what is in use with an age below the bound, where there is a bound, and answers the age then.
pub fn make_room(used: &mut [bool], ages: &mut [u32], bound: u32, age: u32) -> u32
    requires same { length used.old ≡ length ages.old }
    requires small { age < 4294967295 }
    ensures used { (i : ℕ) → get_or used.new i false ≡ (get_or used.old i false && not (is_old used.old ages.old bound i)) }
    ensures ages { (i : ℕ) → get_or ages.new i 0 ≡ (if is_old used.old ages.old bound i then age + 1 else get_or ages.old i 0) }
    ensures age { result ≡ (if nat_lt 0 bound then age + 1 else age) }
{
    if bound == 0 {
        return age;
    }
    release(used, ages, bound, age + 1);
    age + 1
}

/// Takes the mark away from a run, and from what is in use with an age below the bound.
pub fn unmark(shared: &mut [bool], used: &[bool], ages: &[u32], bound: u32, first: usize, k: usize)
    requires uses { length shared.old ≡ length used.now }
    requires same { length used.now ≡ length ages.now }
    requires small { first + k ≤ length shared.old }
    ensures { (i : ℕ) → get_or shared.new i false ≡ (get_or shared.old i false && not (is_within first k i || is_old used.now ages.now bound i)) }
{
    for i in 0..shared.len() {
        let is_freed = used[i] && ages[i] < bound;
        if (first <= i && i < first + k) || is_freed {
            shared[i] = false;
        }
    }
}
