// Two laws of accumulators: they do not depend on the order of the values, and values have no two.
ghost use Rattle.jet_laws.specs.Accs.{AccIsOne, AccStaysByOrder};

/// The accumulator of values is that of the same values in any other order, also where its count and sum wrap.
pub fn acc_stays_by_order()
    ensures { AccStaysByOrder }
{}

/// Values have at most one accumulator.
pub fn acc_is_one()
    ensures { AccIsOne }
{}
