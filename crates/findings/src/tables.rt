// Whether two tables are the same, number for number, as far as their rows go.
ghost use Rattle.std.specs.Prelude.{◌≡◌};
ghost use Rattle.rules.specs.Table.{same_table};
ghost use Rattle.findings.specs.Lent.{front_table, Holds};

use table::Lent;

// The number of rows, the head row, the marks of the rows and their cells.
pub fn same_table(table: &Lent<'_>, other: &Lent<'_>) -> bool
    requires table_holds { Holds table.now }
    requires other_holds { Holds other.now }
    ensures { result ≡ same_table (front_table table.now) (front_table other.now) }
{
    if table.rows != other.rows || table.head != other.head {
        return false;
    }
    let n = table.rows as usize;
    table.marks[..n] == other.marks[..n] && table.cells[..256 * n] == other.cells[..256 * n]
}
