// The finder's flow and the stored one, each as it is read: the kind of the layers' record may differ, the numbers may not.
use records::flow_file::FlowFile;

// Do the bytes start with a flow of n nodes?
pub(crate) fn is_flow(file: &[u8], n: usize) -> bool {
    FlowFile::read(file, n).is_ok()
}

// Is each node's layer the same number?
fn same_layers(flow: &FlowFile<'_>, wanted: &FlowFile<'_>, n: usize) -> bool {
    (0..n).all(|u| flow.layer_of(u) == wanted.layer_of(u))
}

// Does the file end with the sets?
fn ends(flow: &FlowFile<'_>) -> bool {
    flow.signals.is_none() && flow.after.is_empty()
}

// Is the first, by layers of kind 0021 and with nothing behind its sets, the flow of n nodes that the second holds by either kind?
pub(crate) fn same_flow(file: &[u8], stored: &[u8], n: usize) -> bool {
    let Ok(flow) = FlowFile::read(file, n) else {
        return false;
    };
    let Ok(wanted) = FlowFile::read(stored, n) else {
        return false;
    };
    flow.wide
        && ends(&flow)
        && ends(&wanted)
        && same_layers(&flow, &wanted, n)
        && flow.sets == wanted.sets
}
