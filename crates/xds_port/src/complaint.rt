// What is wrong of a resource, as a checker says.
use std::marker::Model;

/// What is wrong of a resource: its name, the path of the field, and the cause, each of them empty where the checker doesn't say it.
#[derive(Debug, Drop)]
pub struct Complaint {
    pub resource: String,
    pub field: String,
    pub cause: String,
}

impl Model for Complaint {
    ghost use Rattle.std.specs.Prelude.{string_bytes};
    ghost use Rattle.xds_port.specs.Complaints.{Fault};

    ghost Value = { Fault };

    ghost view = { λ c. record { resource = string_bytes c.resource; field = string_bytes c.field; cause = string_bytes c.cause } };
}
