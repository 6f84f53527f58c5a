//! The rows that are asked for.
ghost use Rattle.std.specs.Prelude.{◌≡◌, length};
ghost use Rattle.page_layout.specs.Page.{page};
ghost use Rattle.lab_dump.specs.Rows.{is_asked, shown_page, AskedLaw, NoRowsNamedLaw, WithinLaw};

use page_layout::geometry::Geometry;

/// Rows of a die, from `first` to `end - 1`: none where `end` is not past `first`. (This project.)
#[derive(Clone, Copy, Debug, PartialEq, Eq)]
pub struct Rows {
    /// The first row.
    pub first: u32,
    /// One past the last row.
    pub end: u32,
}

/// Whether a row is asked for: each is where no rows are named.
pub fn is_asked(rows: Option<Rows>, row: u32) -> bool
    ensures { result ≡ is_asked rows row }
{
    match rows {
        Some(rows) => rows.first <= row && row < rows.end,
        None => true,
    }
}

/// Where rows are named, those from the first one to the one before the end are asked for, and no others.
pub fn asked_law()
    ensures { AskedLaw }
{}

/// An image of which only rows are shown has as many pages, those of these rows, and an erased one in place of each other.
pub fn within_law()
    ensures { WithinLaw }
{}

/// Where no rows are named the image is shown as it is.
pub fn each_law()
    ensures { NoRowsNamedLaw }
{}

// Leaves the page of a row that is asked for as it is, and makes an erased one of any other.
pub(crate) fn show_page(
    geometry: &Geometry,
    rows: Option<Rows>,
    row: u32,
    body: &mut [u8],
    spare: &mut [u8],
)
    requires body_whole { length body.old ≡ geometry.now.data_bytes }
    requires spare_whole { length spare.old ≡ geometry.now.spare_bytes }
    ensures { page body.new spare.new ≡ shown_page geometry.now rows row (page body.old spare.old) }
{
    if !is_asked(rows, row) {
        body.fill(0xFF);
        spare.fill(0xFF);
    }
}
