// The resources of a response as a trace has it.
ghost use Rattle.std.specs.Prelude.{◌≡◌, map, option_map, Ok, All, IfOk, IfErr};
ghost use Rattle.std.specs.List.{AllZip};
ghost use Rattle.serde_json.specs.View.{view};
ghost use Rattle.xds_resource.specs.declared.refusal.Refusal.TheVariants.{OutOfMemory};
ghost use Rattle.xds_resource.specs.Any.{resource_type, named_body};
ghost use Rattle.xds_resource.specs.Refusals.{Gives};
ghost use Rattle.xds_resource.specs.Resources.{IsCanonical, from_value, value_of};
ghost use Rattle.xds_message.specs.Responses.{resource_of};
ghost use Rattle.xds_ledger.specs.declared.variant.VariantName.TheVariants.{StateOfTheWorld, Delta};
ghost use Rattle.xds_check.specs.Answers.{IsReadable, IsStatement, label_or_none, labelled_resource};
ghost use Rattle.xds_check.specs.Texts.{IsStated, IsLabelled};
ghost use Rattle.xds_check.specs.Words.{Finds};

use serde_json::Value;
use std::alloc::Global;
use std::marker::Model;
use xds_message::DeltaResource;
use xds_resource::laws::resources_are_canonical;
use xds_resource::{AnyResource, Refusal, TypeName};

/// The name and the version that stand beside a resource in a delta response.
pub struct Label {
    name: String,
    version: String,
}

// Written out: docs/PROVING.md, "Drops".
impl Drop for Label {
    fn drop(self) {
        let Label {
            name: _,
            version: _,
        } = self;
    }
}

impl Model for Label {
    ghost use Rattle.std.specs.Prelude.{string_bytes};
    ghost use Rattle.xds_check.specs.Answers.{Label};

    ghost Value = { Label };

    ghost view = { λ l. record { name = string_bytes l.name; version = string_bytes l.version } };
}

impl Label {
    pub fn name(&self) -> &str
        ensures { result.now ≡ self.now.name }
    {
        self.name.as_str()
    }

    pub fn version(&self) -> &str
        ensures { result.now ≡ self.now.version }
    {
        self.version.as_str()
    }
}

/// A resource of a response: its name and the compact text of its object, and in delta its label.
pub struct Statement {
    name: String,
    body: String,
    label: Option<Label>,
}

// Written out: docs/PROVING.md, "Drops".
impl Drop for Statement {
    fn drop(self) {
        let Statement {
            name: _,
            body: _,
            label: _,
        } = self;
    }
}

impl Model for Statement {
    ghost use Rattle.std.specs.Prelude.{string_bytes};
    ghost use Rattle.xds_check.specs.Answers.{Statement};

    ghost Value = { Statement };

    ghost view = { λ x. record { name = string_bytes x.name; body = string_bytes x.body; label = x.label } };
}

impl Statement {
    /// The name of the resource.
    pub fn name(&self) -> &str
        ensures { result.now ≡ self.now.name }
    {
        self.name.as_str()
    }

    /// The compact text of its object.
    pub fn body(&self) -> &str
        ensures { result.now ≡ self.now.body }
    {
        self.body.as_str()
    }

    pub fn label(&self) -> Option<&Label>
        ensures { option_map (λ l. l.now) result ≡ self.now.label }
    {
        match &self.label {
            Some(label) => Some(label),
            None => None,
        }
    }

    // The object, as it is read again from its text.
    fn value(&self, alloc: Global) -> Result<Value, Refusal>
        requires { IsReadable self.now }
        ensures ok { IfOk result (λ v. view v ≡ value_of self.now.body) }
        ensures refused { IfErr result (λ e. e ≡ OutOfMemory) }
    {
        match Value::from_str(alloc, self.body.as_str()) {
            Ok(value) => Ok(value),
            Err(_) => Err(Refusal::OutOfMemory),
        }
    }

    // The name of the label, empty where there is none.
    fn label_name(&self) -> &str
        ensures { result.now ≡ (label_or_none self.now.label).name }
    {
        match &self.label {
            Some(label) => label.name(),
            None => "",
        }
    }

    // The version of the label, empty where there is none.
    fn label_version(&self) -> &str
        ensures { result.now ≡ (label_or_none self.now.label).version }
    {
        match &self.label {
            Some(label) => label.version(),
            None => "",
        }
    }

    // The resource with its label, as it stands in a message.
    fn labelled_value(&self, alloc: Global) -> Result<DeltaResource, Refusal>
        requires { IsReadable self.now }
        ensures ok { IfOk result (λ r. resource_of r ≡ labelled_resource self.now) }
        ensures refused { IfErr result (λ e. e ≡ OutOfMemory) }
    {
        Ok(DeltaResource {
            name: String::from_str(alloc, self.label_name())?,
            version: String::from_str(alloc, self.label_version())?,
            resource: self.value(alloc)?,
        })
    }
}

// The statement of a resource, with a label or none.
fn stated(alloc: Global, resource: &AnyResource, label: Option<Label>) -> Result<Statement, Refusal>
    ensures ok { IfOk result (λ x. x
        ≡ record { name = (named_body resource.now).name; body = (named_body resource.now).body; label = label }) }
    ensures canonical { IfOk result
        (λ x. IsCanonical (resource_type resource.now) (record { name = x.name; body = x.body })) }
    ensures refused { IfErr result (λ e. e ≡ OutOfMemory) }
{
    resources_are_canonical(resource);
    Ok(Statement {
        name: String::from_str(alloc, resource.name())?,
        body: String::from_str(alloc, resource.body())?,
        label,
    })
}

// The statement of a value that is a resource of the type.
fn statement_of(
    alloc: Global,
    kind: TypeName,
    value: Value,
    label: Option<Label>,
) -> Result<Statement, Refusal>
    ensures found { Finds (λ x. x)
        (λ x. (from_value kind (view value) ≡ Ok (record { name = x.name; body = x.body })) × (x.label ≡ label)) result }
    ensures canonical { IfOk result (λ x. IsCanonical kind (record { name = x.name; body = x.body })) }
{
    match AnyResource::from_value(alloc, kind, value) {
        Ok(resource) => stated(alloc, &resource, label),
        Err(Refusal::OutOfMemory) => Err(Refusal::OutOfMemory),
        Err(_) => Err(Refusal::BadTrace),
    }
}

fn bare_statement(alloc: Global, kind: TypeName, value: Value) -> Result<Statement, Refusal>
    ensures found { Finds (λ x. x) (IsStated kind (view value)) result }
    ensures sound { IfOk result (IsStatement StateOfTheWorld kind) }
{
    statement_of(alloc, kind, value, None)
}

// The statements of values, each of which has to be a resource of the type.
pub(crate) fn statements_of(
    alloc: Global,
    kind: TypeName,
    values: Vec<Value>,
) -> Result<Vec<Statement>, Refusal>
    ensures found { Finds (λ v. v.items) (AllZip (IsStated kind) (map view values.items)) result }
    ensures sound { IfOk result (λ v. All (IsStatement StateOfTheWorld kind) v.items) }
{
    let mut statements = Vec::new(alloc);
    for value in values {
        statements.push(bare_statement(alloc, kind, value)?)?;
    }
    Ok(statements)
}

fn labelled_statement(
    alloc: Global,
    kind: TypeName,
    resource: DeltaResource,
) -> Result<Statement, Refusal>
    ensures found { Finds (λ x. x) (IsLabelled kind (resource_of resource)) result }
    ensures sound { IfOk result (IsStatement Delta kind) }
{
    let label = Label {
        name: resource.name,
        version: resource.version,
    };
    statement_of(alloc, kind, resource.resource, Some(label))
}

// The same of the resources of a delta response, with their labels.
pub(crate) fn labelled_statements(
    alloc: Global,
    kind: TypeName,
    resources: Vec<DeltaResource>,
) -> Result<Vec<Statement>, Refusal>
    ensures found { Finds (λ v. v.items) (AllZip (IsLabelled kind) (map resource_of resources.items)) result }
    ensures sound { IfOk result (λ v. All (IsStatement Delta kind) v.items) }
{
    let mut statements = Vec::new(alloc);
    for resource in resources {
        statements.push(labelled_statement(alloc, kind, resource)?)?;
    }
    Ok(statements)
}

// The objects of statements.
pub(crate) fn copy_values(alloc: Global, statements: &Vec<Statement>) -> Result<Vec<Value>, Refusal>
    requires { All IsReadable statements.now.items }
    ensures ok { IfOk result (λ v. map view v.items ≡ map (λ x. value_of x.body) statements.now.items) }
    ensures refused { IfErr result (λ e. e ≡ OutOfMemory) }
{
    let mut values = Vec::new(alloc);
    for statement in statements {
        values.push(statement.value(alloc)?)?;
    }
    Ok(values)
}

// The resources of a delta response that statements are.
pub(crate) fn labelled_values(
    alloc: Global,
    statements: &Vec<Statement>,
) -> Result<Vec<DeltaResource>, Refusal>
    requires { All IsReadable statements.now.items }
    ensures ok { IfOk result (λ v. map resource_of v.items ≡ map labelled_resource statements.now.items) }
    ensures refused { IfErr result (λ e. e ≡ OutOfMemory) }
{
    let mut values = Vec::new(alloc);
    for statement in statements {
        values.push(statement.labelled_value(alloc)?)?;
    }
    Ok(values)
}
