//! Laws that relate the definitions to one another. They call nothing of the code.

ghost use Rattle.std.specs.Prelude.{◌≡◌, [], List, Ok, Err, bytes_eq};
ghost use Rattle.gsi_word.specs.Names.{same_pair};
ghost use Rattle.th_csv.specs.Records.{Fields};
ghost use Rattle.th_tables.specs.Fields.{benchmark_in, weighted_in};
ghost use Rattle.th_tables.specs.Rows.{BenchmarkRows, WeightRows};
ghost use Rattle.th_tables.specs.Tables.{AreRowsOf, IsFirstFault, rows_after};
ghost use Rattle.th_tables.specs.declared.faults.TableFault.{TableFault};

/// Either the records under the header of a table of benchmarks have no fault and state its rows,
/// or the table has the fault of the first record that has one.
pub fn benchmarks_have_no_fault_or_the_first()
    ensures rows { (records : List Fields) (rows : BenchmarkRows) → rows_after bytes_eq benchmark_in [] records ≡ Ok rows → AreRowsOf bytes_eq benchmark_in records rows }
    ensures fault { (records : List Fields) (fault : TableFault) → rows_after bytes_eq benchmark_in [] records ≡ Err fault → IsFirstFault bytes_eq benchmark_in records fault }
{}

/// The same for a table of weights.
pub fn weights_have_no_fault_or_the_first()
    ensures rows { (records : List Fields) (rows : WeightRows) → rows_after same_pair weighted_in [] records ≡ Ok rows → AreRowsOf same_pair weighted_in records rows }
    ensures fault { (records : List Fields) (fault : TableFault) → rows_after same_pair weighted_in [] records ≡ Err fault → IsFirstFault same_pair weighted_in records fault }
{}
