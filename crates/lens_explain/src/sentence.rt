// A sentence for each code. The codes are those of docs/document.md.

/// What a code means, whatever its path is.
pub(crate) fn sentence(code: u32) -> &'static str {
    match code {
        1 =>
            "A document is JSON in UTF-8: one value that ends where the input ends, nested at most 127 deep.",
        2 => "A document is one JSON object, whose version is 1, 2, 3 or 4.",
        3 => "This object has a key that isn't known.",
        4 => "A key is missing that has to be there.",
        5 =>
            "The value has the wrong JSON type, or is no whole number that is written in digits alone.",
        6 => "The value is out of its range, or no word that is known here.",
        7 => "These settings don't fit each other.",
        8 =>
            "No such process: write a controller's name or kubelet/NODE of this document; stop and watch take a controller, ready a kubelet.",
        9 => "Events stand in the order of their beats, none after endBeat.",
        10 => "This field of a manifest has the wrong JSON type.",
        _ => later_sentence(code),
    }
}

fn later_sentence(code: u32) -> &'static str {
    match code {
        11 =>
            "objects is a v1 List as kubectl get -o json writes it, each item with texts apiVersion and kind; a put has a Node, a Pod or a Lease.",
        12 =>
            "A name has 1 to 253 lower-case letters, digits, - and .; between dots it begins and ends with a letter or digit.",
        13 =>
            "A time looks like 2024-01-01T00:00:00Z, with a capital T, and Z or an offset such as +05:30.",
        14 =>
            "This number has to be whole and within its range: from 0 to 2147483647 in a Lease, of 64 bits in a toleration.",
        15 => "An effect is NoSchedule, PreferNoSchedule or NoExecute.",
        16 => "An operator is Exists or Equal.",
        17 =>
            "A toleration without a key has the operator Exists, Exists has no value, and tolerationSeconds comes with the effect NoExecute.",
        18 => "The status of the condition Ready is True, False or Unknown, as a text.",
        19 => "An earlier taint of this Node has the same key and effect.",
        20 =>
            "A region or zone is a label value: at most 63 letters, digits, -, _ and ., with a letter or digit at both ends.",
        _ => last_sentence(code),
    }
}

fn last_sentence(code: u32) -> &'static str {
    match code {
        21 => "A taint needs a key that isn't empty.",
        30 =>
            "An event may not put or remove the election Lease kube-system/kube-controller-manager.",
        31 => "The same name, or the same object, stands earlier in the document.",
        32 =>
            "There are too many here: at most 16 controllers, 1000 kubelets, 100000 events, 1000 Nodes, 2000 Leases, 30000 Pods, and 100 taints or tolerations of each. In version 4 at most 15000 kubelets, 1000000 events, 15000 Nodes, 30000 Leases, 450000 Pods, 100000 sets of pods, and 15000 members of a set.",
        33 => "The input has more than 16777216 bytes.",
        34 => "The beat is after the document's end.",
        99 => "It is known, but not built yet: nothing runs a document that has it. Leave it out.",
        _ => "The document is refused.",
    }
}
