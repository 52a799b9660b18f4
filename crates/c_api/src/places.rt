// The lines and columns of many positions.
ghost use Rattle.std.specs.Prelude.{◌≡◌};
ghost use Rattle.positions.specs.LineColumns.{line_columns, number_of};

use positions::line_columns;

// The lines and columns of positions that never fall: two cells of `places` for each.
#[unsafe(no_mangle)]
#[tactic(auto, unfolding(positions::specs::LineColumns::number_of))]
pub extern "C" fn purple_garden_line_columns(
    script: &[u8],
    positions: &[u32],
    places: &mut [u32],
) -> u32
    ensures { let bytes = script.now in
        let due = line_columns bytes positions.now places.old in
        (result ≡ number_of due.answer) × (places.new ≡ due.places) }
{
    match line_columns(script, positions, places) {
        Ok(()) => 0,
        Err(refusal) => refusal.into(),
    }
}
