//! The character that decides the level of a paragraph (P2).
ghost use Rattle.std.specs.Prelude.{◌≡◌, ◌≢◌, ◌<◌, ◌≤◌, ℕ, None, length};
ghost use Rattle.units.specs.Classes.{classes_of};
ghost use Rattle.units.specs.Isolates.{first_strong, isolate_around};
ghost use Rattle.explicit.specs.IsolateMaps.{IsFilledFrom};

use explicit::isolates::IsolateMap;
use units::bracket::Unit;

/// Returns the next position outside of all isolates, or the end of the paragraph if there is none. The position `p`
/// must be outside of all isolates, and `isolates` filled from the paragraph.
fn next_outside(para: &[Unit], isolates: &IsolateMap, p: usize) -> usize
    requires isolates { IsFilledFrom isolates.now (classes_of para.now) }
    requires inside { p < length para.now }
    requires outside { isolate_around (classes_of para.now) p ≡ None }
    ensures later { p < result }
    ensures within { result ≤ length para.now }
    ensures outside { result < length para.now → isolate_around (classes_of para.now) result ≡ None }
    ensures next { (q : ℕ) → p < q → q < result → isolate_around (classes_of para.now) q ≢ None }
{
    if !para[p].class.is_isolate_initiator() {
        return p + 1;
    }
    match isolates.partner(p) {
        Some(pdi) => pdi,
        None => para.len(),
    }
}

/// P2: returns the first strong position outside of all isolates, if there is one. `isolates` must be filled from the
/// paragraph.
pub fn first_strong(para: &[Unit], isolates: &IsolateMap) -> Option<usize>
    requires { IsFilledFrom isolates.now (classes_of para.now) }
    ensures { result ≡ first_strong (classes_of para.now) None }
{
    let mut p = 0;
    while p < para.len() {
        if para[p].class.is_strong() {
            return Some(p);
        }
        p = next_outside(para, isolates, p);
    }
    None
}
