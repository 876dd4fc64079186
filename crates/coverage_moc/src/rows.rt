//! Rows in ascending order: one is looked up, put in or taken out.
ghost use Rattle.std.specs.Prelude.{◌≡◌, OnOk, ◌∷◌, ◌++◌, filter, not};
ghost use Rattle.std.specs.List.{list_all};
ghost use Rattle.coverage_moc.specs.Cover.{has, IsAscending, without};
ghost use Rattle.coverage_moc.specs.Rows.{SameMembers};

use std::alloc::AllocError;

/// Whether the row is there.
pub(crate) fn has_row(rows: &[u64], row: u64) -> bool
    requires { IsAscending rows.now }
    ensures { result ≡ has rows.now row }
{
    rows.binary_search(&row).is_ok()
}

/// Puts a row in, unless it is there.
pub(crate) fn put_row(rows: &mut Vec<u64>, row: u64) -> Result<(), AllocError>
    requires { IsAscending rows.old.items }
    ensures ascending { IsAscending rows.new.items }
    ensures put { OnOk result (SameMembers rows.new.items (row ∷ rows.old.items)) }
{
    match rows.binary_search(&row) {
        Ok(_place) => Ok(()),
        Err(place) => Ok(rows.insert(place, row)?),
    }
}

/// Takes a row out, and says whether it was there.
pub(crate) fn take_row(rows: &mut Vec<u64>, row: u64) -> bool
    requires { IsAscending rows.old.items }
    ensures was { result ≡ has rows.old.items row }
    ensures ascending { IsAscending rows.new.items }
    ensures taken { SameMembers rows.new.items (without row rows.old.items) }
{
    match rows.binary_search(&row) {
        Ok(place) => {
            rows.remove(place);
            true
        }
        Err(_place) => false,
    }
}

/// Whether all these rows are there.
pub(crate) fn has_rows(rows: &[u64], wanted: &[u64]) -> bool
    requires { IsAscending rows.now }
    ensures { result ≡ list_all (has rows.now) wanted.now }
{
    wanted.iter().all(|row| has_row(rows, *row))
}

/// Puts these rows in.
pub(crate) fn put_rows(rows: &mut Vec<u64>, more: &[u64]) -> Result<(), AllocError>
    requires { IsAscending rows.old.items }
    ensures ascending { IsAscending rows.new.items }
    ensures put { OnOk result (SameMembers rows.new.items (more.now ++ rows.old.items)) }
{
    for row in more {
        put_row(rows, *row)?;
    }
    Ok(())
}

/// Takes these rows out.
pub(crate) fn take_rows(rows: &mut Vec<u64>, gone: &[u64])
    requires { IsAscending rows.old.items }
    ensures ascending { IsAscending rows.new.items }
    ensures taken { SameMembers rows.new.items (filter (λ row. not (has gone.now row)) rows.old.items) }
{
    for row in gone {
        take_row(rows, *row);
    }
}
