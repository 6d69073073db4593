//! Templates that are due, keys that differ in one field, a template in the place of another, and room.
use crate::Templates;
use lvs_types::{Addr, Method, Template, TemplateId, TemplateKey};
use std::test::Fail;

const CLIENT: Addr = Addr {
    number: 0xAC10_0000,
};

const VIRTUAL: Addr = Addr {
    number: 0x0A00_0001,
};

const KEY: TemplateKey = TemplateKey {
    code: 6,
    client: CLIENT,
    vaddr: VIRTUAL,
    vport: 80,
};

const FIRST: Template = Template {
    id: TemplateId(1),
    key: KEY,
    server: None,
    method: Method::Masq,
    daddr: Addr {
        number: 0xC0A8_0001,
    },
    dport: 8080,
    timeout: 360,
    deadline: 100,
};

#[test]
fn renews_a_due_one_with_controls(rt: HostRuntime) -> Result<(), Fail> {
    let alloc = rt.alloc();
    let mut templates = Templates::new(alloc)?;
    templates.put(FIRST)?;
    templates.control(TemplateId(1));
    let due = templates.due(alloc, 100)?;
    assert_eq!(rt; (due.gone.len(), due.renewed), (0, 1));
    assert_eq!(rt; templates.get(TemplateId(1)).map(|t| t.deadline), Some(160));
    let due = templates.due(alloc, 170)?;
    assert_eq!(rt; (due.gone.len(), due.renewed), (0, 1));
    assert_eq!(rt; templates.find(&KEY).map(|t| t.deadline), Some(230));
    templates.uncontrol(TemplateId(1));
    assert_eq!(rt; templates.due(alloc, 229)?.gone.len(), 0);
    let due = templates.due(alloc, 230)?;
    assert_eq!(rt; (due.gone.len(), due.renewed), (1, 0));
    assert!(rt; templates.find(&KEY).is_none());
    Ok(())
}

#[test]
fn takes_out_a_due_one_without_controls(rt: HostRuntime) -> Result<(), Fail> {
    let alloc = rt.alloc();
    let mut templates = Templates::new(alloc)?;
    templates.put(FIRST)?;
    assert_eq!(rt; templates.due(alloc, 99)?.gone.len(), 0);
    let due = templates.due(alloc, 100)?;
    assert_eq!(rt; (due.gone.first().copied(), due.renewed), (Some(FIRST), 0));
    assert_eq!(rt; templates.all(alloc)?.len(), 0);
    Ok(())
}

#[test]
fn tells_keys_apart_by_each_field(rt: HostRuntime) -> Result<(), Fail> {
    let mut templates = Templates::new(rt.alloc())?;
    templates.put(FIRST)?;
    let others = [
        TemplateKey { code: 17, ..KEY },
        TemplateKey {
            client: VIRTUAL,
            ..KEY
        },
        TemplateKey {
            vaddr: CLIENT,
            ..KEY
        },
        TemplateKey { vport: 0, ..KEY },
    ];
    for other in &others {
        assert!(rt; templates.find(other).is_none(), "at {other:?}");
    }
    assert_eq!(rt; templates.take(&KEY), Some(FIRST));
    assert!(rt; templates.get(TemplateId(1)).is_none());
    Ok(())
}

#[test]
fn puts_one_over_another(rt: HostRuntime) -> Result<(), Fail> {
    let alloc = rt.alloc();
    let mut templates = Templates::new(alloc)?;
    assert_eq!(rt; templates.put(FIRST)?, None);
    templates.control(TemplateId(1));
    let later = Template {
        deadline: 200,
        ..FIRST
    };
    assert_eq!(rt; templates.put(later)?, Some(FIRST));
    assert_eq!(rt; templates.due(alloc, 200)?.renewed, 1);
    let next = Template {
        id: TemplateId(2),
        ..FIRST
    };
    let before = templates.put(next)?;
    assert_eq!(rt; before.map(|t| t.deadline), Some(260));
    assert!(rt; templates.get(TemplateId(1)).is_none());
    assert_eq!(rt; templates.all(alloc)?.first().copied(), Some(next));
    templates.control(TemplateId(1));
    assert_eq!(rt; templates.due(alloc, 100)?.gone.len(), 1);
    Ok(())
}

#[test]
fn puts_one_where_room_was_made(rt: HostRuntime) -> Result<(), Fail> {
    let mut templates = Templates::new(rt.alloc())?;
    templates.reserve()?;
    assert_eq!(rt; templates.put_reserved(FIRST), None);
    assert_eq!(rt; templates.find(&KEY).copied(), Some(FIRST));
    assert_eq!(rt; templates.get(TemplateId(1)).copied(), Some(FIRST));
    Ok(())
}
