//! The rows of the profile that apply to a message, by its kind and its name.
ghost use Rattle.std.specs.Prelude.{◌≡◌, true, Some, map, option_map};
ghost use Rattle.dap_profile.specs.RowRanges.{rows_in, rows_asked, rows_named, has_name, one_name};
ghost use Rattle.dap_profile.specs.RowRanges.{are_runs};
ghost use Rattle.dap_profile.specs.Profile.{profile};
ghost use Rattle.dap_profile.specs.ProfileRows.{row_of};

use crate::profile::{Kind, Row, profile_rows};

/// Rows of the profile in the order of their numbers, as slices of the profile.
pub type AskedRows = [&'static [Row]; 7];

/// The lengths of the runs of rows 8 to 49. A run consists of the rows with one name.
static FIRST_REQUESTS: [usize; 15] = [2, 2, 5, 3, 2, 4, 4, 4, 2, 2, 3, 2, 2, 3, 2];

/// The lengths of the runs of rows 141 to 151.
static SECOND_REQUESTS: [usize; 6] = [1, 2, 2, 2, 2, 2];

/// The lengths of the runs of rows 156 to 166.
static THIRD_REQUESTS: [usize; 5] = [2, 2, 2, 2, 3];

/// The lengths of the runs of rows 88 to 104.
static FIRST_EVENTS: [usize; 7] = [3, 2, 4, 2, 2, 2, 2];

/// The lengths of the runs of rows 152 to 155.
static SECOND_EVENTS: [usize; 4] = [1, 1, 1, 1];

/// The lengths of the runs of rows 168 to 172.
static THIRD_EVENTS: [usize; 2] = [2, 3];

/// The lengths of the runs of rows 50 to 87.
static FIRST_RESPONSES: [usize; 10] = [1, 4, 4, 8, 5, 6, 3, 3, 2, 2];

/// The lengths of the runs of rows 173 to 188.
static LAST_RESPONSES: [usize; 4] = [4, 4, 4, 4];

/// Returns the rows that apply to a message of this kind and name.
///
/// Row 1 applies to every message, row 2 to every request, row 3 to every event, rows 4 to 7 to
/// every response. The other rows apply by name. They form several parts of the table per kind.
pub fn rows_of(kind: Kind, name: Option<&str>) -> AskedRows
    ensures { rows_in result ≡ rows_asked (Some kind) (option_map (λ s. s.now) name.entry) }
{
    let rows = profile_rows();
    match kind {
        Kind::Request => requests_of(rows, name),
        Kind::Event => events_of(rows, name),
        Kind::Response => responses_of(rows, name),
    }
}

/// Returns the rows that apply to a request with this command. By name these are some of the rows
/// 8 to 49, 141 to 151 and 156 to 166.
fn requests_of(rows: &'static [Row; 188], name: Option<&str>) -> AskedRows
    requires { map row_of rows.now ≡ profile }
    ensures { rows_in result
        ≡ rows_asked (Some Kind.Request) (option_map (λ s. s.now) name.entry) }
{
    [
        &rows[..1],
        &rows[1..2],
        rows_named(&rows[7..49], &FIRST_REQUESTS, name),
        rows_named(&rows[140..151], &SECOND_REQUESTS, name),
        rows_named(&rows[155..166], &THIRD_REQUESTS, name),
        &[],
        &[],
    ]
}

/// Returns the rows that apply to an event with this name. By name these are some of the rows 88 to
/// 104, 152 to 155 and 168 to 172.
fn events_of(rows: &'static [Row; 188], name: Option<&str>) -> AskedRows
    requires { map row_of rows.now ≡ profile }
    ensures { rows_in result
        ≡ rows_asked (Some Kind.Event) (option_map (λ s. s.now) name.entry) }
{
    [
        &rows[..1],
        &rows[2..3],
        rows_named(&rows[87..104], &FIRST_EVENTS, name),
        rows_named(&rows[151..155], &SECOND_EVENTS, name),
        rows_named(&rows[167..172], &THIRD_EVENTS, name),
        &[],
        &[],
    ]
}

/// Returns the rows that apply to a response to this command. By name these are some of the rows 50
/// to 87, 105 to 139 (`initialize` only), 140 (`threads` only), 167 (`setBreakpoints` only) and 173
/// to 188.
fn responses_of(rows: &'static [Row; 188], name: Option<&str>) -> AskedRows
    requires { map row_of rows.now ≡ profile }
    ensures { rows_in result
        ≡ rows_asked (Some Kind.Response) (option_map (λ s. s.now) name.entry) }
{
    [
        &rows[..1],
        &rows[3..7],
        rows_named(&rows[49..87], &FIRST_RESPONSES, name),
        all_if_named(&rows[104..139], name),
        all_if_named(&rows[139..140], name),
        all_if_named(&rows[166..167], name),
        rows_named(&rows[172..], &LAST_RESPONSES, name),
    ]
}

/// Returns the rows, which all have one name, if it is this name, and otherwise no row.
#[tactic(auto, unfolding(crate::specs::RowRanges::rows_named))]
fn all_if_named(rows: &'static [Row], name: Option<&str>) -> &'static [Row]
    requires { one_name (map row_of rows.now) ≡ true }
    ensures { map row_of result.now
        ≡ rows_named (option_map (λ s. s.now) name.entry) (map row_of rows.now) }
{
    let [row, ..] = rows else {
        return rows;
    };
    if has_name(row, name) { rows } else { &[] }
}

/// Returns the rows with this name. `runs` has the lengths of the runs of the rows, and only the
/// first row of a run is compared.
#[tactic(auto, unfolding(crate::specs::RowRanges::rows_named))]
fn rows_named(rows: &'static [Row], runs: &[usize], name: Option<&str>) -> &'static [Row]
    requires { are_runs runs.now (map row_of rows.now) ≡ true }
    ensures { map row_of result.now
        ≡ rows_named (option_map (λ s. s.now) name.entry) (map row_of rows.now) }
{
    let mut rest = rows;
    for count in runs {
        let (run, later) = rest.split_at(*count);
        if has_name(&rest[0], name) {
            return run;
        }
        rest = later;
    }
    &[]
}

/// Returns whether the row has this name.
#[inline(always)]
fn has_name(row: &Row, name: Option<&str>) -> bool
    ensures { result ≡ has_name (option_map (λ s. s.now) name.entry) (row_of row.now) }
{
    match (row.name, name) {
        (Some(own), Some(name)) => own == name,
        _ => false,
    }
}
