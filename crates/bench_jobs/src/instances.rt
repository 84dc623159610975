// Random instances, and their texts.
use crate::numbers::Numbers;
use std::alloc::{AllocError, Global};
use std::fmt::Write;

const LONG_ROUTE_MACHINES: usize = 3;

/// How many jobs an instance has, and how many machines.
#[derive(Clone, Copy)]
pub struct Size {
    pub jobs: usize,
    pub machines: usize,
}

/// A step of a job: its machine, and its time.
#[derive(Clone, Copy)]
pub struct Step {
    pub machine: usize,
    pub time: u64,
}

/// An instance whose jobs visit each machine once, for 1 to 99.
#[derive(Drop)]
pub struct Instance {
    pub size: Size,
    pub routes: Vec<Vec<Step>>,
}

/// Makes a route over all machines in a random order. Fails with `AllocError` if memory runs out.
fn random_route(
    alloc: Global,
    numbers: &mut Numbers,
    machines: usize,
) -> Result<Vec<Step>, AllocError> {
    let mut route = Vec::with_capacity(alloc, machines)?;
    for machine in numbers.shuffled(alloc, machines)? {
        let time = numbers.below(99) as u64 + 1;
        route.push(Step { machine, time })?;
    }
    Ok(route)
}

/// Makes an instance of this size with random routes. Fails with `AllocError` if memory runs out.
pub fn random_instance(
    alloc: Global,
    numbers: &mut Numbers,
    size: Size,
) -> Result<Instance, AllocError> {
    let mut routes = Vec::with_capacity(alloc, size.jobs)?;
    for _ in 0..size.jobs {
        routes.push(random_route(alloc, numbers, size.machines)?)?;
    }
    Ok(Instance { size, routes })
}

/// Writes the lines that begin an instance. Fails with `AllocError` if memory runs out.
fn write_head(text: &mut String, name: usize, size: Size) -> Result<(), AllocError> {
    write!(
        text,
        "instance random{name}\n{} {}\n",
        size.jobs, size.machines
    )
}

/// Writes the text of an instance in the format `orlib`, named by a number. Fails with `AllocError` if memory runs out.
pub fn write_instance(
    text: &mut String,
    name: usize,
    instance: &Instance,
) -> Result<(), AllocError> {
    write_head(text, name, instance.size)?;
    for route in &instance.routes {
        for step in route {
            write!(text, "{} {} ", step.machine, step.time)?;
        }
        text.push_str("\n")?;
    }
    Ok(())
}

/// Makes the text of fresh random instances of this size, in the format `orlib`. Fails with `AllocError` if memory runs
/// out.
pub fn random_text(
    alloc: Global,
    numbers: &mut Numbers,
    size: Size,
    instances: usize,
) -> Result<String, AllocError> {
    let mut text = String::new(alloc);
    for name in 0..instances {
        write_instance(&mut text, name, &random_instance(alloc, numbers, size)?)?;
    }
    Ok(text)
}

/// Makes the text of an instance in the format `routes`: jobs of 90 to 100 steps on three machines, each for 0 to 3, so
/// that each route comes back to each machine some thirty times. Fails with `AllocError` if memory runs out.
pub fn text_of_long_routes(
    alloc: Global,
    numbers: &mut Numbers,
    jobs: usize,
) -> Result<String, AllocError> {
    let mut text = String::new(alloc);
    let machines = LONG_ROUTE_MACHINES;
    write_head(&mut text, 0, Size { jobs, machines })?;
    for _ in 0..jobs {
        text.push_str("0")?;
        for _ in 0..90 + numbers.below(11) {
            write!(text, " {} {}", numbers.below(machines), numbers.below(4))?;
        }
        text.push_str("\n")?;
    }
    Ok(text)
}
