// What holds of all inputs that are read. This function does nothing: it carries laws on its contract.
ghost use Rattle.pod_inputs.specs.Laws.{CollectInputsAreFew, PlaceInputsAreFew};

/// Inputs that the walks give keep the limits of a document: 1,000 Nodes, 30,000 Pods, and 100 tolerations of a Pod.
pub fn inputs_are_few()
    ensures collect { CollectInputsAreFew }
    ensures place { PlaceInputsAreFew }
{}
