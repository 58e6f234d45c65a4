//! Workstations and domains.
ghost use Rattle.std.specs.Prelude.{◌≡◌, ◌++◌, OnOk, map, flat_map};
ghost use Rattle.composer_print.specs.Texts.{unless};
ghost use Rattle.composer_print.specs.Normal.{bare, bare_cpu};
ghost use Rattle.composer_print.specs.Stations as spec;

use base_types::Text;
use composer_parser::{CpuDef, DomainDef, Lined};
use std::io::{self, Write};
use syntax::write_quoted;

/// Writes a port, where it is not the default.
#[tactic(auto, unfolding(crate::specs::Stations::port_text))]
fn write_port(out: &mut Vec<u8>, port: &Option<u32>) -> io::Result<()>
    ensures { OnOk result (out.new.items ≡ out.old.items ++ spec.port_text (unless 31111 port.now)) }
{
    match port {
        None => Ok(()),
        Some(n) => {
            if *n == 31111 {
                return Ok(());
            }
            write!(out, " TCPADDR {}", *n)
        }
    }
}

/// Writes AUTOLINK, where it is OFF.
#[tactic(auto, unfolding(crate::specs::Stations::link_text))]
fn write_link(out: &mut Vec<u8>, link: &Option<bool>) -> io::Result<()>
    ensures { OnOk result (out.new.items ≡ out.old.items ++ spec.link_text (spec.unless_on link.now)) }
{
    match link {
        None => Ok(()),
        Some(true) => Ok(()),
        Some(false) => write!(out, " AUTOLINK OFF"),
    }
}

/// Writes FULLSTATUS, where it is ON.
#[tactic(auto, unfolding(crate::specs::Stations::full_text))]
fn write_full(out: &mut Vec<u8>, full: &Option<bool>) -> io::Result<()>
    ensures { OnOk result (out.new.items ≡ out.old.items ++ spec.full_text (spec.unless_off full.now)) }
{
    match full {
        None => Ok(()),
        Some(true) => write!(out, " FULLSTATUS ON"),
        Some(false) => Ok(()),
    }
}

fn type_word(manager: bool) -> &'static str
    ensures { result.now ≡ spec.type_word manager }
{
    if manager { "MANAGER" } else { "FTA" }
}

/// Writes a workstation up to its port.
#[tactic(auto, unfolding(crate::specs::Stations::machine_text))]
fn write_machine(out: &mut Vec<u8>, cpu: &CpuDef) -> io::Result<()>
    ensures { OnOk result (out.new.items ≡ out.old.items ++ spec.machine_text (spec.normal_cpu cpu.now)) }
{
    write!(
        out,
        "CPUNAME {} OS {} NODE ",
        cpu.name.as_str(),
        cpu.os.as_str()
    )?;
    write_quoted(out, &cpu.host)?;
    write_port(out, &cpu.port)
}

/// Writes a workstation from its domain on.
#[tactic(auto, unfolding(crate::specs::Stations::place_text))]
fn write_place(out: &mut Vec<u8>, cpu: &CpuDef) -> io::Result<()>
    ensures { OnOk result (out.new.items ≡ out.old.items ++ spec.place_text (spec.normal_cpu cpu.now)) }
{
    let word = type_word(cpu.manager);
    write!(
        out,
        " DOMAIN {} FOR MAESTRO TYPE {word}",
        cpu.domain.as_str()
    )?;
    write_link(out, &cpu.autolink)?;
    write_full(out, &cpu.full)?;
    write!(out, " END\n")
}

/// Writes a workstation.
#[tactic(auto, unfolding(crate::specs::Stations::cpu_line))]
fn write_cpu(out: &mut Vec<u8>, cpu: &CpuDef) -> io::Result<()>
    ensures { OnOk result (out.new.items ≡ out.old.items ++ spec.cpu_line (spec.normal_cpu cpu.now)) }
{
    write_machine(out, cpu)?;
    write_place(out, cpu)
}

/// Writes a line for each workstation.
pub(crate) fn write_cpus(out: &mut Vec<u8>, cpus: &[Lined<CpuDef>]) -> io::Result<()>
    ensures { OnOk result (out.new.items ≡ out.old.items ++ flat_map (λ c. spec.cpu_line c.item) (map bare_cpu cpus.now)) }
{
    for cpu in cpus {
        write_cpu(out, &cpu.item)?;
    }
    Ok(())
}

#[tactic(auto, unfolding(crate::specs::Stations::parent_text))]
fn write_parent(out: &mut Vec<u8>, parent: &Option<Text>) -> io::Result<()>
    ensures { OnOk result (out.new.items ≡ out.old.items ++ spec.parent_text parent.now) }
{
    match parent {
        None => write!(out, " ISMASTER"),
        Some(name) => write!(out, " PARENT {}", name.as_str()),
    }
}

#[tactic(auto, unfolding(crate::specs::Stations::domain_line))]
fn write_domain(out: &mut Vec<u8>, domain: &DomainDef) -> io::Result<()>
    ensures { OnOk result (out.new.items ≡ out.old.items ++ spec.domain_line domain.now) }
{
    write!(
        out,
        "DOMAIN {} MANAGER {}",
        domain.name.as_str(),
        domain.manager.as_str()
    )?;
    write_parent(out, &domain.parent)?;
    write!(out, " END\n")
}

/// Writes a line for each domain.
pub(crate) fn write_domains(out: &mut Vec<u8>, domains: &[Lined<DomainDef>]) -> io::Result<()>
    ensures { OnOk result (out.new.items ≡ out.old.items ++ flat_map (λ d. spec.domain_line d.item) (map bare domains.now)) }
{
    for domain in domains {
        write_domain(out, &domain.item)?;
    }
    Ok(())
}
