// The names of processes.
ghost use Rattle.std.specs.Prelude.{◌≡◌, ◌<◌, ◌++◌, All, IfOk, OnOk, codes, length, map};
ghost use Rattle.script_reader.specs.Documents.{doc_of};
ghost use Rattle.kube_objects.specs.Document.{processes as process_count};
ghost use Rattle.script_reader.specs.Lawful.{IsWellNamed};
ghost use Rattle.trace_writer.specs.Names.{text_of};
ghost use Rattle.replay_top.specs.Names.{process_names as names_in_order};

use kube_base::{ListOf, Name, Names, NoMemory};
use kube_objects::Proc;
use script_reader::Document;
use std::alloc::Global;
use trace_writer::name_of;

/// The names of a document's processes in order: those of the controllers, then `kubelet/NODE`.
pub fn process_names(alloc: Global, document: &Document) -> Result<ListOf<Name>, NoMemory>
    requires named { IsWellNamed document.now.names (doc_of document.now) }
    ensures names { IfOk result (λ processes. processes ≡ names_in_order document.now.names (doc_of document.now)) }
    ensures count { IfOk result (λ processes. length processes ≡ process_count (doc_of document.now)) }
{
    let mut processes = ListOf::new(alloc);
    add_controllers(
        alloc,
        &mut processes,
        &document.names,
        document.controllers.as_slice(),
    )?;
    add_kubelets(
        alloc,
        &mut processes,
        &document.names,
        document.kubelets.as_slice(),
    )?;
    Ok(processes)
}

fn add_controllers(
    alloc: Global,
    processes: &mut ListOf<Name>,
    names: &Names,
    controllers: &[Proc],
) -> Result<(), NoMemory>
    requires { All (λ p. p.name < length names.now) controllers.now }
    ensures { OnOk result (processes.new ≡ processes.old ++ map (λ p. text_of names.now p.name) controllers.now) }
{
    for controller in controllers {
        let name = name_of(names, controller.name);
        processes.push(Name::from_bytes(alloc, name)?)?;
    }
    Ok(())
}

fn add_kubelets(
    alloc: Global,
    processes: &mut ListOf<Name>,
    names: &Names,
    kubelets: &[Proc],
) -> Result<(), NoMemory>
    requires { All (λ p. p.name < length names.now) kubelets.now }
    ensures { OnOk result (processes.new ≡ processes.old ++ map (λ p. codes "kubelet/" ++ text_of names.now p.name) kubelets.now) }
{
    for kubelet in kubelets {
        let node = name_of(names, kubelet.name);
        processes.push(kubelet_name(alloc, node)?)?;
    }
    Ok(())
}

/// A kubelet's name, by that of its node.
fn kubelet_name(alloc: Global, node: &[u8]) -> Result<Name, NoMemory>
    ensures { IfOk result (λ name. name ≡ codes "kubelet/" ++ node.now) }
{
    let mut name = Vec::from_slice(alloc, b"kubelet/")?;
    name.extend_from_slice(node)?;
    Name::from_bytes(alloc, &name)
}
