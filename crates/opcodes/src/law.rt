// The rule of the opcode table, on a function's contract.
ghost use Rattle.opcodes.specs.Laws.{TableRule, TableNames130};

// The table names a kind exactly where the kind's code stands in the low bits, which is at 130 first bytes.
pub fn table_keeps_its_rule()
    ensures rule { TableRule }
    ensures many { TableNames130 }
{}
