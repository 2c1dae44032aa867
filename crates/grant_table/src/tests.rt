// Layouts at their limits, and of two small devices.
ghost use Rattle.std.specs.Prelude.{◌≡◌, ◌<◌, true, IfOk};
ghost use Rattle.part_model.specs.Plans as plans;

use crate::{Grant, Layout, LayoutRefusal, Net, Protocol, layout_fault};
use base_types::{Items, Text};
use part_model::{Digit, Opcode, Part, PartPlan, PartRefusal, Pattern, Patterns};
use std::alloc::{AllocError, Global};

fn grant(alloc: Global, devices: &[u16], port: u16) -> Result<Grant, AllocError> {
    Ok(Grant {
        devices: Items::from_vec(Vec::from_slice(alloc, devices)?),
        port,
        protocol: Protocol::Xvc,
    })
}

// So many grants of one device each, at ports from 2543 on; the last, at port 2542, has all devices that are left.
fn grants_of(alloc: Global, count: u8, devices: u8) -> Result<Vec<Grant>, AllocError> {
    let mut grants = Vec::new(alloc);
    for device in 1..count {
        let device = u16::from(device);
        grants.push(grant(alloc, &[device], 2542 + device)?)?;
    }
    let mut rest = Vec::new(alloc);
    for device in count..=devices {
        rest.push(u16::from(device))?;
    }
    grants.push(grant(alloc, &rest, 2542)?)?;
    Ok(grants)
}

fn net(from: u16, to: u16, cell: u32) -> Net {
    Net {
        from_device: from,
        from_cell: 0,
        to_device: to,
        to_cell: cell,
    }
}

fn refusal(cause: u8, grant: u16, value: u64) -> Option<LayoutRefusal> {
    Some(LayoutRefusal {
        cause,
        grant,
        value,
    })
}

#[test]
fn counts_have_limits(rt: HostRuntime) -> Result<(), AllocError> {
    let alloc = rt.alloc();
    assert_eq!(rt; layout_fault(32, &grants_of(alloc, 16, 32)?, &[]), None);
    assert_eq!(rt;
        layout_fault(33, &grants_of(alloc, 16, 32)?, &[]),
        refusal(5, 0, 33)
    );
    assert_eq!(rt;
        layout_fault(32, &grants_of(alloc, 17, 32)?, &[]),
        refusal(5, 0, 17)
    );
    let mut nets = Vec::new(alloc);
    for cell in 0..4096 {
        nets.push(net(1, 2, cell))?;
    }
    let pair = [grant(alloc, &[2, 1], 2542)?];
    assert_eq!(rt; layout_fault(2, &pair, &nets), None);
    nets.push(net(2, 1, 0))?;
    assert_eq!(rt; layout_fault(2, &pair, &nets), refusal(8, 0, 4097));
    Ok(())
}

#[test]
fn the_first_fault_is_told(rt: HostRuntime) -> Result<(), AllocError> {
    let alloc = rt.alloc();
    let pair = [grant(alloc, &[1], 2542)?, grant(alloc, &[2], 2542)?];
    assert_eq!(rt; layout_fault(2, &pair, &[]), refusal(4, 2, 2542));
    let none = [grant(alloc, &[], 0)?, grant(alloc, &[9], 2542)?];
    assert_eq!(rt; layout_fault(2, &none, &[]), refusal(1, 1, 0));
    let shared = [grant(alloc, &[2], 2542)?, grant(alloc, &[1, 2, 9], 0)?];
    assert_eq!(rt; layout_fault(2, &shared, &[]), refusal(2, 2, 2));
    let twice = [grant(alloc, &[1, 1, 9], 2542)?];
    assert_eq!(rt; layout_fault(2, &twice, &[]), refusal(2, 1, 1));
    let apart = [grant(alloc, &[1], 2542)?, grant(alloc, &[2], 2543)?];
    assert_eq!(rt;
        layout_fault(2, &apart, &[net(1, 1, 0), net(1, 2, 0)]),
        refusal(6, 0, 2)
    );
    let both = [grant(alloc, &[1, 2], 2542)?];
    assert_eq!(rt;
        layout_fault(2, &both, &[net(1, 2, 3), net(2, 2, 3)]),
        refusal(7, 0, 2)
    );
    Ok(())
}

fn pattern(alloc: Global, digits: &[Digit]) -> Result<Pattern, AllocError> {
    let digits = Vec::from_slice(alloc, digits)?;
    Ok(Pattern {
        digits: Items::from_vec(digits),
    })
}

fn small_plan(alloc: Global, boundary: u32) -> Result<PartPlan, AllocError>
    ensures { IfOk result (λ plan. plans.all_have_patterns plan.opcodes ≡ true) }
{
    let mut patterns = Vec::new(alloc);
    patterns.push(pattern(alloc, &[Digit::One, Digit::One])?)?;
    let mut opcodes = Items::from_vec(Vec::new(alloc));
    opcodes.push(Opcode {
        name: Text::from_str(alloc, "BYPASS")?,
        patterns: Patterns::from_vec(patterns),
    })?;
    Ok(PartPlan {
        ir_len: 2,
        opcodes,
        capture: pattern(alloc, &[Digit::One, Digit::Zero])?,
        idcode: None,
        usercode: None,
        access: Items::from_vec(Vec::new(alloc)),
        boundary,
    })
}

#[test]
fn a_layout_is_made(rt: HostRuntime) -> Result<(), PartRefusal> {
    let alloc = rt.alloc();
    let mut parts = Vec::new(alloc);
    parts.push(Part::new(alloc, small_plan(alloc, 3)?)?)?;
    parts.push(Part::new(alloc, small_plan(alloc, 5)?)?)?;
    parts.push(Part::new(alloc, small_plan(alloc, 7)?)?)?;
    let mut grants = Vec::new(alloc);
    grants.push(grant(alloc, &[2], 2542)?)?;
    grants.push(grant(alloc, &[3, 1], 2543)?)?;
    let mut nets = Vec::new(alloc);
    nets.push(net(1, 3, 6))?;
    assert!(rt; layout_fault(parts.len(), &grants, &nets).is_none());
    let layout = Layout::new(alloc, parts, grants, nets)?;
    assert_eq!(rt; layout.ir_total(), 6);
    assert_eq!(rt; layout.grant_of(2543), Some(1));
    assert_eq!(rt; layout.grant_of(2544), None);
    assert_eq!(rt; layout.grants(), 2);
    assert_eq!(rt; layout.group(1), [0, 2].as_slice());
    assert_eq!(rt; layout.longest(1), 10);
    assert_eq!(rt; layout.port(0), 2542);
    assert_eq!(rt; layout.nets().len(), 1);
    assert_eq!(rt; layout.part(layout.devices() - 1).longest(), 7);
    Ok(())
}
