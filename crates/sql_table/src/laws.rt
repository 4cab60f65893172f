//! The law of what can fault.
ghost use Rattle.sql_table.specs.FaultLaws.{OnlyArithmeticFaults};

/// Of the operators only those on numbers fault, whatever the cells are.
pub fn only_arithmetic_faults()
    ensures { OnlyArithmeticFaults }
{}
