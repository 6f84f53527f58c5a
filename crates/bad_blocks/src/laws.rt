//! What the layers above know of table pages.
ghost use Rattle.bad_blocks.specs.Laws.{TableBytesLaw, TableLengthLaw, TableRowsLaw};

/// What the layers above know of table pages: each table has one spelling, of one length, and a page
/// tells the rows of its blocks.
pub fn table_page_laws()
    ensures bytes { TableBytesLaw }
    ensures rows { TableRowsLaw }
    ensures len { TableLengthLaw }
{}
