//! Whether messages with declarations keep their order while others move.
ghost use Rattle.std.specs.Prelude.{◌≡◌, ◌+◌, ◌<◌, ◌∷◌, [], true, drop, length, IfSome};
ghost use Rattle.std.specs.Prelude.{MatchOption};
ghost use Rattle.dap_rules.specs.RuledOrder.{KeepsRuled, flag_at, set_from};

/// Returns whether the places contain each place whose flag is set once, in their order.
pub(crate) fn keeps_ruled(flags: &[bool], places: &[usize]) -> bool
    ensures { result ≡ true → KeepsRuled flags.now places.now }
{
    let mut from = 0;
    for place in places {
        if is_set(flags, *place) {
            if first_set(flags, from) != Some(*place) {
                return false;
            }
            from = *place + 1;
        }
    }
    first_set(flags, from).is_none()
}

/// Returns the flag at a place, which is set if there is none.
fn is_set(flags: &[bool], place: usize) -> bool
    ensures { result ≡ flag_at flags.now place }
{
    flags.get(place).copied().unwrap_or(true)
}

/// Returns the first place, from `from` on, whose flag is set.
fn first_set(flags: &[bool], from: usize) -> Option<usize>
    ensures within { IfSome result (λ p. p < length flags.now) }
    ensures first { MatchOption result (set_from from (drop from flags.now) ≡ [])
        (λ p. set_from from (drop from flags.now)
        ≡ p ∷ set_from (p + 1) (drop (p + 1) flags.now)) }
{
    let mut place = from;
    while place < flags.len() {
        if flags[place] {
            return Some(place);
        }
        place += 1;
    }
    None
}
