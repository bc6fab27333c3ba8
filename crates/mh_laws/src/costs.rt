//! Laws of quanta and of the costs of their steps.
ghost use Rattle.mh_laws.specs.Costs.{QuantumKeepsItsLimit, DearestStepCosts209};

/// No quantum spends more units than are configured.
pub fn quantum_keeps_its_limit()
    ensures { QuantumKeepsItsLimit }
{}

/// No step costs more than 209 on a table whose classes have at most 64 words and whose blocks have at most 60 references, as at every moment of a run.
pub fn dearest_step_costs_209()
    ensures { DearestStepCosts209 }
{}
